//! What the element of an identifier has in it.
ghost use Rattle.std.specs.Prelude.{◌≡◌, [], ◌∷◌, ℕ, List, IfSome, IsNone, IfOk, option_copied};
ghost use Rattle.std.specs.List.{filter, find, list_any};
ghost use Rattle.std.specs.Str.{bytes_eq};
ghost use Rattle.ifmap_elem.specs.Building.{is_bare};
ghost use Rattle.ifmap_elem.specs.declared.elements.Child;
ghost use Rattle.ifmap_elem.specs.declared.elements.Child.{Child};
ghost use Rattle.ifmap_ident.specs.Canon.{domain_of};
ghost use Rattle.ifmap_ident.specs.Kinds.{allowed_attributes};
ghost use Rattle.ifmap_ident.specs.Parts.{has_only, is_blank_inside, is_known, is_solid, value_of};

use crate::kinds::Kind;
use ifmap_elem::white_space::is_blank;
use ifmap_elem::{Attribute, Child, Copied, Element, Text};
use std::alloc::{AllocError as NoMemory, Global};

/// The value of the attribute of this local name in no namespace; `None` where there is none. It takes
/// no memory.
pub fn value_of<'a>(element: &'a Element, local: &str) -> Option<&'a Text>
    ensures { option_copied result ≡ value_of local.now element.now }
{
    let attributes = &element.attributes;
    match attribute_of(attributes.as_slice(), local) {
        Some(attribute) => Some(&attribute.value),
        None => None,
    }
}

fn attribute_of<'a>(attributes: &'a [Attribute], local: &str) -> Option<&'a Attribute>
    ensures { option_copied result ≡ find (λ a. is_bare local.now a.name) attributes.now }
{
    attributes
        .iter()
        .find(|attribute| attribute.name.is_bare(local))
}

// A copy of the administrative domain; an empty one where there is none.
pub(crate) fn copy_domain(alloc: Global, element: &Element) -> Result<Text, NoMemory>
    ensures { IfOk result (λ domain. domain ≡ domain_of element.now) }
{
    match value_of(element, "administrative-domain") {
        Some(domain) => domain.copy(alloc),
        None => Ok(Text(String::new(alloc))),
    }
}

// Whether it has no attribute but those that a kind allows and those of a namespace.
pub(crate) fn has_only(kind: Kind, element: &Element) -> bool
    ensures { result ≡ has_only (allowed_attributes kind) element.now }
{
    let attributes = &element.attributes;
    attributes.iter().all(|attribute| is_known(kind, attribute))
}

fn is_known(kind: Kind, attribute: &Attribute) -> bool
    ensures { result ≡ is_known (allowed_attributes kind) attribute.now }
{
    !attribute.name.space.is_empty() || is_allowed(kind, attribute.name.local.as_str())
}

// Whether a kind allows the attribute.
fn is_allowed(kind: Kind, local: &str) -> bool
    ensures { result ≡ list_any (bytes_eq local.now) (allowed_attributes kind) }
{
    match kind {
        Kind::AccessRequest => is_one_of(local, "name", "administrative-domain"),
        Kind::Device => false,
        Kind::Identity => {
            is_one_of(local, "name", "type")
                || is_one_of(local, "other-type-definition", "administrative-domain")
        }
        Kind::IpAddress => local == "value" || is_one_of(local, "type", "administrative-domain"),
        Kind::MacAddress => is_one_of(local, "value", "administrative-domain"),
    }
}

fn is_one_of(local: &str, one: &str, other: &str) -> bool
    ensures { result ≡ list_any (bytes_eq local.now) (one.now ∷ (other.now ∷ [])) }
{
    local == one || local == other
}

// Whether it has no child but white space.
pub(crate) fn is_blank_inside(element: &Element) -> bool
    ensures { result ≡ is_blank_inside element.now }
{
    let children = &element.children;
    children.iter().all(is_blank)
}

// The child that is not white space, where there is one alone.
pub(crate) fn only_solid_child(children: &[Child]) -> Option<&Child>
    ensures found { IfSome result (λ child. filter is_solid children.now ≡ child.now ∷ []) }
    ensures none { IsNone result → (child : Child) →
        filter is_solid children.now ≡ child ∷ [] → ⊥ }
{
    let mut found: Option<&Child> = None;
    for child in children {
        if is_blank(child) {
            continue;
        }
        if found.is_some() {
            return None;
        }
        found = Some(child);
    }
    found
}

// The text, where it is the one child.
pub(crate) fn only_text(children: &[Child]) -> Option<&Text>
    ensures found { IfSome result (λ text. children.now ≡ Child.Text text.now ∷ []) }
    ensures none { IsNone result → (text : List ℕ) → children.now ≡ Child.Text text ∷ [] → ⊥ }
{
    if children.len() != 1 {
        return None;
    }
    match &children[0] {
        Child::Element(_) => None,
        Child::Text(text) => Some(text),
    }
}
