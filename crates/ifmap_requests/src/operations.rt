//! The operations of a publish.
ghost use Rattle.std.specs.Prelude.{◌≡◌, None};
ghost use Rattle.ifmap_elem.specs.declared.elements.Child.{out-Child};
ghost use Rattle.ifmap_forms.specs.Answers.{IsChecked};
ghost use Rattle.ifmap_forms.specs.Gathering.{part_check};
ghost use Rattle.ifmap_forms.specs.Scopes.{Scopes, place_scopes, scopes_below, scopes_by};
ghost use Rattle.ifmap_forms.specs.Tables.{form_check, list_of, parts_in};
ghost use Rattle.ifmap_requests.specs.RequestForms.{delete_form, delete_from_form, notify_form, notify_of, operation_of, publish_op_check, update_form, update_from_form};

use crate::metadata::read_published;
use crate::publish_ops::PublishOp;
use ifmap_elem::{Child, Element, Many, Name};
use ifmap_forms::gathering::keep_found;
use ifmap_forms::identifiers::read_item;
use ifmap_forms::parts::{has_only, pass_over_text};
use ifmap_forms::values::{read_filter, read_lifetime};
use ifmap_forms::{FormError, MessagePlace};
use ifmap_ident::Code;
use std::alloc::Global;

// The operations that the children of a publish are, where the place is that of the publish.
pub(crate) fn read_publish_ops(
    alloc: Global,
    place: &MessagePlace<'_, '_>,
    children: Vec<Child>,
) -> Result<Many<PublishOp>, FormError>
    requires { place.now.child ≡ None }
    ensures { IsChecked (list_of publish_op_check
        (scopes_by place.now.declared.now place.now.path.now)
        (parts_in children.items)) result }
{
    let mut ops = Vec::new(alloc);
    let mut index = 0;
    for child in children {
        let found = next_op(alloc, place, index, child)?;
        keep_found(&mut ops, found)?;
        index += 1;
    }
    Ok(Many(ops))
}

fn next_op(
    alloc: Global,
    place: &MessagePlace<'_, '_>,
    index: usize,
    child: Child,
) -> Result<Option<PublishOp>, FormError>
    ensures { IsChecked (part_check (publish_op_check (scopes_below (scopes_by
        place.now.declared.now place.now.path.now) index)) (out-Child child)) result }
{
    match child {
        Child::Element(element) => {
            let place = place.of_child(index)?;
            Ok(Some(read_op(alloc, &place, element)?))
        }
        Child::Text(text) => pass_over_text(&text),
    }
}

/// The name of an operation of a publish.
pub enum Operation {
    Update,
    Notify,
    Delete,
}

fn operation_of(name: &Name) -> Option<Operation>
    ensures { result ≡ operation_of name.now }
{
    if name.is_bare("update") {
        Some(Operation::Update)
    } else if name.is_bare("notify") {
        Some(Operation::Notify)
    } else if name.is_bare("delete") {
        Some(Operation::Delete)
    } else {
        None
    }
}

fn read_op(
    alloc: Global,
    place: &MessagePlace<'_, '_>,
    element: Element,
) -> Result<PublishOp, FormError>
    ensures { IsChecked (publish_op_check (place_scopes place.now.declared.now place.now.path.now
        place.now.child) element) result }
{
    match operation_of(&element.name) {
        Some(Operation::Update) => read_update(alloc, element),
        Some(Operation::Notify) => read_notify(alloc, element),
        Some(Operation::Delete) => read_delete(alloc, place, &element),
        None => Err(FormError::Named(Code::Failure)),
    }
}

fn read_update(alloc: Global, element: Element) -> Result<PublishOp, FormError>
    ensures { (scopes : Scopes) →
        IsChecked (form_check update_form update_from_form scopes element) result }
{
    let forever = read_lifetime(&element)?;
    if !has_only(&element, &["lifetime"]) {
        return Err(FormError::Named(Code::Failure));
    }
    let children = element.children;
    let published = read_published(alloc, children.0)?;
    Ok(PublishOp::Update {
        item: published.item,
        elements: published.elements,
        forever,
    })
}

fn read_notify(alloc: Global, element: Element) -> Result<PublishOp, FormError>
    ensures { (scopes : Scopes) →
        IsChecked (form_check notify_form notify_of scopes element) result }
{
    if !has_only(&element, &[]) {
        return Err(FormError::Named(Code::Failure));
    }
    let children = element.children;
    let published = read_published(alloc, children.0)?;
    Ok(PublishOp::Notify {
        item: published.item,
        elements: published.elements,
    })
}

fn read_delete(
    alloc: Global,
    place: &MessagePlace<'_, '_>,
    element: &Element,
) -> Result<PublishOp, FormError>
    ensures { IsChecked
        (form_check delete_form delete_from_form (place_scopes place.now.declared.now
        place.now.path.now place.now.child) element.now) result }
{
    let filter = read_filter(alloc, place, element, "filter")?;
    if !has_only(element, &["filter"]) {
        return Err(FormError::Named(Code::Failure));
    }
    let item = read_item(alloc, element.children.as_slice())?;
    Ok(PublishOp::Delete { item, filter })
}
