//! The way to the element in an envelope.
ghost use Rattle.std.specs.Prelude.{◌≡◌, ◌∷◌, [], ◌<◌, ◌≤◌, ℕ, List, codes, drop, length, IfSome, IsNone};
ghost use Rattle.std.specs.Bool.{OnTrue};
ghost use Rattle.std.specs.List.{position};
ghost use Rattle.ifmap_elem.specs.declared.elements.Child.{out-Child};
ghost use Rattle.ifmap_elem.specs.declared.elements.Element.{Element};
ghost use Rattle.ifmap_elem.specs.Building.{is_name};
ghost use Rattle.ifmap_forms.specs.Tables.{parts_in, element_parts};
ghost use Rattle.ifmap_elem.specs.Fit.{is_element};
ghost use Rattle.ifmap_envelopes.specs.Envelopes.{IsOnlyElement, IsBodyAt, IsEnvelope, IsPartAt, blank_front, envelope_name, is_first, is_last_part, is_part_named, is_solid_part};

use crate::spaces::ENVELOPE_SPACE;
use ifmap_elem::white_space::is_blank;
use ifmap_elem::{Child, Element, Name};
use ifmap_forms::parts::are_blank;

/// The element in an envelope, and the way to it.
#[derive(Drop)]
pub struct Inner {
    /// The index of the body among the children of the envelope.
    pub body: usize,
    /// The index of the element among the children of the body.
    pub index: usize,
    pub element: Element,
}

/// The element in an envelope, moved out of it, with the indexes that lead to it; `None` exactly
/// where the element is no envelope. It takes no memory.
pub fn open_envelope(root: Element) -> Option<Inner>
    ensures found { IfSome result (λ inner.
        IsEnvelope root (inner.body ∷ (inner.index ∷ [])) inner.element) }
    ensures none { IsNone result → (path : List ℕ) (e : Element) →
        IsEnvelope root path e → ⊥ }
{
    if !is_named(&root.name, "Envelope") {
        return None;
    }
    let (place, body) = take_body(root)?;
    let (index, element) = take_alone(body)?;
    Some(Inner {
        body: place,
        index,
        element,
    })
}

fn is_named(name: &Name, local: &str) -> bool
    ensures { result ≡ is_name name.now (envelope_name local.now) }
{
    name.space.as_str() == ENVELOPE_SPACE && name.local.as_str() == local
}

// The body of an envelope, with its index.
fn take_body(root: Element) -> Option<(usize, Element)>
    ensures found { IfSome result (λ body. IsBodyAt (element_parts root) body.0 body.1) }
    ensures none { IsNone result → (index : ℕ) (body : Element) →
        IsBodyAt (element_parts root) index body → ⊥ }
{
    let children = root.children;
    let index = body_index(children.as_slice())?;
    let body = take_child(children.0, index)?;
    Some((index, body))
}

// The one element in a body, with its index.
fn take_alone(body: Element) -> Option<(usize, Element)>
    ensures found { IfSome result (λ inner. IsOnlyElement (element_parts body) inner.0 inner.1) }
    ensures none { IsNone result → (index : ℕ) (e : Element) →
        IsOnlyElement (element_parts body) index e → ⊥ }
{
    let children = body.children;
    let index = alone_index(children.as_slice())?;
    let element = take_child(children.0, index)?;
    Some((index, element))
}

// The index of the body among children, where nothing but a header before it and white space stands
// beside it.
fn body_index(children: &[Child]) -> Option<usize>
    ensures found { IfSome result (λ index.
        (body : Element) × IsBodyAt (parts_in children.now) index body) }
    ensures none { IsNone result → (index : ℕ) (body : Element) →
        IsBodyAt (parts_in children.now) index body → ⊥ }
{
    let first = blank_front(children);
    let left = children_from(children, first);
    if is_last_body(left) {
        return Some(first);
    }
    if !begins_with_header(left) {
        return None;
    }
    let index = first + 1 + blank_front(children_from(children, first + 1));
    if is_last_body(children_from(children, index)) {
        Some(index)
    } else {
        None
    }
}

// The index of the one element, where nothing but white space stands beside it.
fn alone_index(children: &[Child]) -> Option<usize>
    ensures found { IfSome result (λ index.
        (e : Element) × IsOnlyElement (parts_in children.now) index e) }
    ensures none { IsNone result → (index : ℕ) (e : Element) →
        IsOnlyElement (parts_in children.now) index e → ⊥ }
{
    let index = blank_front(children);
    if is_last_element(children_from(children, index)) {
        Some(index)
    } else {
        None
    }
}

fn children_from(children: &[Child], start: usize) -> &[Child]
    requires { start ≤ length children.now }
    ensures { result.now ≡ drop start children.now }
{
    &children[start..]
}

// How many children of white space stand before the others.
fn blank_front(children: &[Child]) -> usize
    ensures front { result ≡ blank_front (parts_in children.now) }
    ensures within { result ≤ length children.now }
{
    match first_solid(children) {
        Some(index) => index,
        None => children.len(),
    }
}

fn first_solid(children: &[Child]) -> Option<usize>
    ensures { result ≡ position (λ child. is_solid_part (out-Child child)) children.now }
{
    children.iter().position(|child| !is_blank(child))
}

// Whether the first child is a body, and the others are white space.
fn is_last_body(children: &[Child]) -> bool
    ensures { result ≡ is_last_part (is_part_named (codes "Body")) (parts_in children.now) }
{
    match children.split_first() {
        Some((first, others)) => is_element_named(first, "Body") && are_blank(others),
        None => false,
    }
}

// Whether the first child is an element, and the others are white space.
fn is_last_element(children: &[Child]) -> bool
    ensures { result ≡ is_last_part is_element (parts_in children.now) }
{
    match children.split_first() {
        Some((first, others)) => is_element(first) && are_blank(others),
        None => false,
    }
}

fn begins_with_header(children: &[Child]) -> bool
    ensures some { OnTrue result (0 < length children.now) }
    ensures header { result ≡ is_first (is_part_named (codes "Header")) (parts_in children.now) }
{
    match children.first() {
        Some(first) => is_element_named(first, "Header"),
        None => false,
    }
}

fn is_element_named(child: &Child, local: &str) -> bool
    ensures { result ≡ is_part_named local.now (out-Child child.now) }
{
    match child {
        Child::Element(element) => is_named(&element.name, local),
        Child::Text(_) => false,
    }
}

fn is_element(child: &Child) -> bool
    ensures { result ≡ is_element (out-Child child.now) }
{
    match child {
        Child::Element(_) => true,
        Child::Text(_) => false,
    }
}

// The child element at that index.
fn take_child(mut children: Vec<Child>, index: usize) -> Option<Element>
    ensures found { IfSome result (λ e. IsPartAt (parts_in children.items) index e) }
    ensures none { IsNone result → (e : Element) →
        IsPartAt (parts_in children.items) index e → ⊥ }
{
    if index >= children.len() {
        return None;
    }
    match children.swap_remove(index) {
        Child::Element(child) => Some(child),
        Child::Text(_) => None,
    }
}
