//! Attributes in the order in which they are printed.
ghost use Rattle.std.specs.Prelude.{◌≡◌, IfOk, map};
ghost use Rattle.std.specs.Bool.{OnTrue};
ghost use Rattle.ifmap_elem.specs.Arranged.{sort_attributes};

use crate::elements::Attribute;
use crate::lists::Many;
use crate::outline_attributes::OutlineAttribute;
use std::alloc::{AllocError as NoMemory, Global};

// Whether the attributes stand in order.
pub(crate) fn are_sorted(attributes: &[Attribute]) -> bool
    ensures { OnTrue result (sort_attributes attributes.now ≡ attributes.now) }
{
    attributes.is_sorted()
}

// References to the attributes, by name and then by value.
pub(crate) fn attributes_in_order(
    alloc: Global,
    attributes: &Many<Attribute>,
) -> Result<Vec<&Attribute>, NoMemory>
    ensures { IfOk result (λ order. map (λ a. a.now) order.items ≡ sort_attributes attributes.now) }
{
    let mut order = Vec::with_capacity(alloc, attributes.len())?;
    for attribute in attributes.as_slice() {
        order.push(attribute)?;
    }
    order.sort_unstable();
    Ok(order)
}

// Whether the attributes of an outline stand in order.
pub(crate) fn are_outline_attributes_sorted(attributes: &[OutlineAttribute<'_>]) -> bool
    ensures { OnTrue result (sort_attributes attributes.now ≡ attributes.now) }
{
    attributes.is_sorted()
}

// References to the attributes of an outline, by local name and then by value.
pub(crate) fn outline_attributes_in_order<'a, 'b>(
    alloc: Global,
    attributes: &'a Many<OutlineAttribute<'b>>,
) -> Result<Vec<&'a OutlineAttribute<'b>>, NoMemory>
    ensures { IfOk result (λ order. map (λ a. a.now) order.items ≡ sort_attributes attributes.now) }
{
    let mut rising = Vec::with_capacity(alloc, attributes.len())?;
    for attribute in attributes.as_slice() {
        rising.push(attribute)?;
    }
    rising.sort_unstable();
    Ok(rising)
}
