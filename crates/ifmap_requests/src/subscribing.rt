//! The operations of a subscribe.
ghost use Rattle.std.specs.Prelude.{◌≡◌, None};
ghost use Rattle.ifmap_elem.specs.declared.elements.Child.{out-Child};
ghost use Rattle.ifmap_forms.specs.Answers.{IsChecked};
ghost use Rattle.ifmap_forms.specs.Gathering.{part_check};
ghost use Rattle.ifmap_forms.specs.Scopes.{Scopes, place_scopes, scopes_below, scopes_by};
ghost use Rattle.ifmap_forms.specs.Tables.{form_check, list_of, parts_in};
ghost use Rattle.ifmap_requests.specs.RequestForms.{end_form, end_from_form, subscribe_op_check, subscription_form, subscription_from_form};

use crate::requests::SubscribeOp;
use crate::searching::read_search;
use ifmap_elem::{Child, Element, Many};
use ifmap_forms::gathering::keep_found;
use ifmap_forms::parts::{are_blank, has_only, pass_over_text};
use ifmap_forms::values::read_name;
use ifmap_forms::{FormError, MessagePlace};
use ifmap_ident::Code;
use std::alloc::Global;

// The operations that the children of a subscribe are, where the place is that of the subscribe.
pub(crate) fn read_subscribe_ops(
    alloc: Global,
    place: &MessagePlace<'_, '_>,
    children: &[Child],
) -> Result<Many<SubscribeOp>, FormError>
    requires { place.now.child ≡ None }
    ensures { IsChecked (list_of subscribe_op_check
        (scopes_by place.now.declared.now place.now.path.now)
        (parts_in children.now)) result }
{
    let mut ops = Vec::new(alloc);
    for (index, child) in children.iter().enumerate() {
        let found = next_op(alloc, place, index, child)?;
        keep_found(&mut ops, found)?;
    }
    Ok(Many(ops))
}

fn next_op(
    alloc: Global,
    place: &MessagePlace<'_, '_>,
    index: usize,
    child: &Child,
) -> Result<Option<SubscribeOp>, FormError>
    ensures { IsChecked (part_check (subscribe_op_check (scopes_below (scopes_by
        place.now.declared.now place.now.path.now) index)) (out-Child child.now)) result }
{
    match child {
        Child::Element(element) => {
            let place = place.of_child(index)?;
            Ok(Some(read_op(alloc, &place, element)?))
        }
        Child::Text(text) => pass_over_text(text),
    }
}

fn read_op(
    alloc: Global,
    place: &MessagePlace<'_, '_>,
    element: &Element,
) -> Result<SubscribeOp, FormError>
    ensures { IsChecked (subscribe_op_check (place_scopes place.now.declared.now place.now.path.now
        place.now.child) element.now) result }
{
    if element.name.is_bare("update") {
        return read_subscription(alloc, place, element);
    }
    if element.name.is_bare("delete") {
        return read_end(alloc, element);
    }
    Err(FormError::Named(Code::Failure))
}

fn read_subscription(
    alloc: Global,
    place: &MessagePlace<'_, '_>,
    element: &Element,
) -> Result<SubscribeOp, FormError>
    ensures { IsChecked (form_check subscription_form subscription_from_form (place_scopes
        place.now.declared.now place.now.path.now place.now.child) element.now) result }
{
    let name = read_name(alloc, element)?;
    let search = read_search(
        alloc,
        place,
        element,
        &[
            "name",
            "match-links",
            "max-depth",
            "max-size",
            "result-filter",
            "terminal-identifier-type",
        ],
    )?;
    Ok(SubscribeOp::Update { name, search })
}

fn read_end(alloc: Global, element: &Element) -> Result<SubscribeOp, FormError>
    ensures { (scopes : Scopes) → IsChecked (form_check end_form end_from_form scopes element.now)
        result }
{
    let name = read_name(alloc, element)?;
    if !has_only(element, &["name"]) {
        return Err(FormError::Named(Code::Failure));
    }
    if !are_blank(element.children.as_slice()) {
        return Err(FormError::Named(Code::Failure));
    }
    Ok(SubscribeOp::Delete { name })
}
