//! Identifiers, and then a list of elements, as children of an element. The elements are moved.
ghost use Rattle.std.specs.Prelude.{◌≡◌, ◌≤◌, ◌∷◌, [], drop, length, take};
ghost use Rattle.ifmap_elem.specs.declared.elements.Child.{out-Child};
ghost use Rattle.ifmap_forms.specs.Answers.{IsChecked, IsCheckedAs};
ghost use Rattle.ifmap_forms.specs.Items.{before_list, identifiers_check, list_check, list_if_there, listed_check, listed_from};
ghost use Rattle.ifmap_forms.specs.Tables.{parts_in};

use crate::errors::FormError;
use crate::identifiers::{item_of, list_index, read_identifiers};
use crate::members::{MemberReader, read_members};
use crate::parts::{are_blank, has_only};
use ifmap_elem::{Child, Element, Many};
use ifmap_ident::{Code, Identifier, Item};
use std::alloc::Global;

/// An item, and the list after it, if there is one.
#[derive(Drop)]
pub struct Listed<T> {
    /// One identifier or two different ones.
    pub item: Item,
    /// What each element of the list means.
    pub list: Option<Many<T>>,
}

/// One identifier or two different ones among children as an item, and then a list, an element
/// `metadata` in no namespace, or none, with nothing beside them but white space. Each child is
/// checked whole before the next: an element before the list that is no identifier has the code of
/// its first fault, and an element in the list that of its first defect; a text that is not white
/// space, an identifier that equals the first, a third one, an attribute of the list in no
/// namespace, and an element after the list are Failure, and last that there is no identifier.
pub fn read_listed<R: MemberReader>(
    alloc: Global,
    children: Vec<Child>,
) -> Result<Listed<R::Member>, FormError>
    ensures { IsChecked (listed_check R.finds (parts_in children.items)) result }
{
    let all = children.as_slice();
    let index = list_index(all);
    let identifiers = read_front(alloc, all, index)?;
    let list = read_list::<R>(alloc, children, index)?;
    list_with_item(identifiers, list)
}

// The identifiers before the list at that index.
fn read_front(alloc: Global, children: &[Child], index: usize) -> Result<Vec<Identifier>, FormError>
    requires cut { take index (parts_in children.now) ≡ before_list (parts_in children.now) }
    requires within { index ≤ length children.now }
    ensures { IsCheckedAs (λ made. made.items) (identifiers_check 2 [] (before_list (parts_in
        children.now))) result }
{
    read_identifiers(alloc, 2, take_front(children, index))
}

fn take_front(children: &[Child], index: usize) -> &[Child]
    requires { index ≤ length children.now }
    ensures { result.now ≡ take index children.now }
{
    &children[..index]
}

fn list_with_item<T: Drop>(
    identifiers: Vec<Identifier>,
    list: Option<Many<T>>,
) -> Result<Listed<T>, FormError>
    ensures { IsChecked (listed_from identifiers.items list) result }
{
    match item_of(identifiers) {
        Some(item) => Ok(Listed { item, list }),
        None => Err(FormError::Named(Code::Failure)),
    }
}

// The list at that index, if there is one.
fn read_list<R: MemberReader>(
    alloc: Global,
    mut children: Vec<Child>,
    index: usize,
) -> Result<Option<Many<R::Member>>, FormError>
    ensures { IsChecked (list_if_there R.finds (drop index (parts_in children.items))) result }
{
    if index >= children.len() {
        return Ok(None);
    }
    let child = children.remove(index);
    read_list_child::<R>(alloc, child, &children[index..])
}

fn read_list_child<R: MemberReader>(
    alloc: Global,
    child: Child,
    after: &[Child],
) -> Result<Option<Many<R::Member>>, FormError>
    ensures { IsChecked (list_if_there R.finds (out-Child child ∷ parts_in after.now)) result }
{
    match child {
        Child::Element(element) => {
            let elements = read_elements::<R>(alloc, element)?;
            if !are_blank(after) {
                return Err(FormError::Named(Code::Failure));
            }
            Ok(Some(elements))
        }
        Child::Text(_) => Err(FormError::Named(Code::Failure)),
    }
}

fn read_elements<R: MemberReader>(
    alloc: Global,
    list: Element,
) -> Result<Many<R::Member>, FormError>
    ensures { IsChecked (list_check R.finds list) result }
{
    if !has_only(&list, &[]) {
        return Err(FormError::Named(Code::Failure));
    }
    let children = list.children;
    Ok(Many(read_members::<R>(alloc, children.0)?))
}
