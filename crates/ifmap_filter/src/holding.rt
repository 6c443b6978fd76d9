//! What an element holds of what predicates ask for.
ghost use Rattle.std.specs.Prelude.{◌≡◌, ◌++◌, ℕ, List, IfNone, IfSome};
ghost use Rattle.std.specs.List.{list_any};
ghost use Rattle.ifmap_filter.specs.Holding.{has_attribute, has_child, has_text, is_attribute, is_child_with, is_text_element, own_text};

use ifmap_elem::fronts::after_word;
use ifmap_elem::{Attribute, Child, Element, Equals, Many, Name, Text};

// Whether the element has the attribute in no namespace with this value.
pub(crate) fn has_attribute(element: &Element, local: &Text, value: &Text) -> bool
    ensures { result ≡ has_attribute local.now value.now element.now }
{
    let attributes = &element.attributes;
    attributes
        .iter()
        .any(|attribute| is_attribute(attribute, local, value))
}

fn is_attribute(attribute: &Attribute, local: &Text, value: &Text) -> bool
    ensures { result ≡ is_attribute local.now value.now attribute.now }
{
    attribute.name.space.is_empty() && attribute.name.local == *local && attribute.value == *value
}

// Whether some child element of this name has this text.
pub(crate) fn has_child(element: &Element, name: &Name, value: &Text) -> bool
    ensures { result ≡ has_child name.now value.now element.now }
{
    let children = &element.children;
    children.iter().any(|child| is_child(child, name, value))
}

fn is_child(child: &Child, name: &Name, value: &Text) -> bool
    ensures { result ≡ is_child_with name.now value.now child.now }
{
    match child {
        Child::Element(element) => is_text_element(element, name, value),
        Child::Text(_) => false,
    }
}

fn is_text_element(element: &Element, name: &Name, value: &Text) -> bool
    ensures { result ≡ is_text_element name.now value.now element.now }
{
    let children = &element.children;
    element.name == *name && has_text(children.as_slice(), value.as_bytes())
}

// Whether the text among these children is this one. The texts are not joined: each is taken off what
// is left.
fn has_text(children: &[Child], value: &[u8]) -> bool
    ensures { result ≡ has_text value.now children.now }
{
    let mut left = value;
    for child in children {
        let Some(rest) = after_own_text(child, left) else {
            return false;
        };
        left = rest;
    }
    left.is_empty()
}

// What is left of the bytes after the child's own text, where they begin with it.
fn after_own_text<'a>(child: &Child, bytes: &'a [u8]) -> Option<&'a [u8]>
    ensures found { IfSome result (λ rest. bytes.now ≡ own_text child.now ++ rest.now) }
    ensures none { IfNone result ((rest : List ℕ) → bytes.now ≡ own_text child.now ++ rest → ⊥) }
{
    match child {
        Child::Element(_) => Some(bytes),
        Child::Text(text) => after_word(text.as_bytes(), bytes),
    }
}
