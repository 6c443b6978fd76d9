//! Identifiers as children of an element.
ghost use Rattle.std.specs.Prelude.{◌≡◌, ◌≤◌, List, [], drop, length, take};
ghost use Rattle.std.specs.List.{list_any, position};
ghost use Rattle.ifmap_ident.specs.Identifiers.{same_identifier};
ghost use Rattle.ifmap_elem.specs.declared.elements.Child.{out-Child};
ghost use Rattle.ifmap_forms.specs.Answers.{IsChecked, IsCheckedAs};
ghost use Rattle.ifmap_forms.specs.Gathering.{following_check, part_check};
ghost use Rattle.ifmap_forms.specs.Items.{before_list, from_list, identifier_check, identifier_refusal, identifiers_check, is_list, item_check, item_of, may_follow, start_check};
ghost use Rattle.ifmap_forms.specs.Tables.{parts_in};

use crate::errors::FormError;
use crate::gathering::{keep_found, only_member};
use crate::parts::pass_over_text;
use ifmap_elem::{Child, Element};
use ifmap_ident::{Code, IdentError, Identifier, Item};
use std::alloc::Global;

/// The one identifier among children, with nothing beside it but white space: where a search
/// begins. Each child is checked whole before the next: an element that is no identifier has the
/// code of its first fault; a text that is not white space, a second identifier, and none at all
/// are Failure.
pub fn read_start(alloc: Global, children: &[Child]) -> Result<Identifier, FormError>
    ensures { IsChecked (start_check (parts_in children.now)) result }
{
    let identifiers = read_identifiers(alloc, 1, children)?;
    match only_member(identifiers) {
        Some(identifier) => Ok(identifier),
        None => Err(FormError::Named(Code::Failure)),
    }
}

/// One identifier or two different ones among children, with nothing beside them but white space,
/// as an item. Each child is checked whole before the next: an element that is no identifier has
/// the code of its first fault; a text that is not white space, an identifier that equals the
/// first, a third one, and none at all are Failure.
pub fn read_item(alloc: Global, children: &[Child]) -> Result<Item, FormError>
    ensures { IsChecked (item_check (parts_in children.now)) result }
{
    let identifiers = read_identifiers(alloc, 2, children)?;
    match item_of(identifiers) {
        Some(item) => Ok(item),
        None => Err(FormError::Named(Code::Failure)),
    }
}

/// One identifier or two different ones as an item; `None` exactly where they are two equal ones,
/// or of another number.
pub fn item_of(mut identifiers: Vec<Identifier>) -> Option<Item>
    ensures { result ≡ item_of identifiers.items }
{
    if identifiers.len() > 2 {
        return None;
    }
    let last = identifiers.pop()?;
    match identifiers.pop() {
        Some(first) => Item::pair(first, last),
        None => Some(Item::One(last)),
    }
}

/// The identifiers among children, in their order: so many at most, no two of them equal, and
/// nothing beside them but white space. Each child is checked whole before the next: an element
/// that is no identifier has the code of its first fault; a text that is not white space, an
/// identifier that equals one before it, and one too many are Failure.
pub fn read_identifiers(
    alloc: Global,
    most: usize,
    children: &[Child],
) -> Result<Vec<Identifier>, FormError>
    ensures { IsCheckedAs (λ made. made.items)
        (identifiers_check most [] (parts_in children.now)) result }
{
    let mut made = Vec::new(alloc);
    for child in children {
        let found = next_identifier(alloc, most, &made, child)?;
        keep_found(&mut made, found)?;
    }
    Ok(made)
}

// The identifier in the next place after others, where it is no white space.
fn next_identifier(
    alloc: Global,
    most: usize,
    before: &[Identifier],
    child: &Child,
) -> Result<Option<Identifier>, FormError>
    ensures { IsChecked (part_check (following_check most before.now) (out-Child child.now))
        result }
{
    match child {
        Child::Element(element) => Ok(Some(following_identifier(alloc, most, before, element)?)),
        Child::Text(text) => pass_over_text(text),
    }
}

fn following_identifier(
    alloc: Global,
    most: usize,
    before: &[Identifier],
    element: &Element,
) -> Result<Identifier, FormError>
    ensures { IsChecked (following_check most before.now element.now) result }
{
    let identifier = read_identifier(alloc, element)?;
    if may_follow(most, before, &identifier) {
        Ok(identifier)
    } else {
        Err(FormError::Named(Code::Failure))
    }
}

fn may_follow(most: usize, before: &[Identifier], identifier: &Identifier) -> bool
    ensures { result ≡ may_follow most before.now identifier.now }
{
    before.len() < most && !is_among(before, identifier)
}

fn is_among(before: &[Identifier], identifier: &Identifier) -> bool
    ensures { result ≡ list_any (same_identifier identifier.now) before.now }
{
    before.iter().any(|other| *identifier == *other)
}

fn read_identifier(alloc: Global, element: &Element) -> Result<Identifier, FormError>
    ensures { IsChecked (identifier_check element.now) result }
{
    match Identifier::from_element(alloc, element) {
        Ok(identifier) => Ok(identifier),
        Err(error) => Err(refusal_of(error)),
    }
}

fn refusal_of(error: IdentError) -> FormError
    ensures { result ≡ identifier_refusal error }
{
    match error {
        IdentError::WrongKind => FormError::Named(Code::InvalidIdentifierType),
        IdentError::Invalid => FormError::Named(Code::InvalidIdentifier),
        IdentError::TooLong => FormError::Named(Code::IdentifierTooLong),
        IdentError::NoMemory => FormError::NoMemory,
    }
}

/// The index of the first child that is an element `metadata` in no namespace, or how many children
/// there are where none is: each child before it stands in an identifier's place.
pub fn list_index(children: &[Child]) -> usize
    ensures before { take result (parts_in children.now) ≡ before_list (parts_in children.now) }
    ensures after { drop result (parts_in children.now) ≡ from_list (parts_in children.now) }
    ensures within { result ≤ length children.now }
{
    match list_place(children) {
        Some(index) => index,
        None => children.len(),
    }
}

fn list_place(children: &[Child]) -> Option<usize>
    ensures { result ≡ position (λ child. is_list (out-Child child)) children.now }
{
    children.iter().position(is_list)
}

fn is_list(child: &Child) -> bool
    ensures { result ≡ is_list (out-Child child.now) }
{
    match child {
        Child::Element(element) => element.name.is_bare("metadata"),
        Child::Text(_) => false,
    }
}
