//! What is taken from an item and put there, while operations are applied.
ghost use Rattle.std.specs.Prelude.{◌≡◌, ◌&&◌, ◌||◌, ◌∷◌, ◌++◌, not, None, Some, [], IfOk, MatchOption, OnOk};
ghost use Rattle.std.specs.List.{AllByRecursion, filter};
ghost use Rattle.std.specs.List.Sorted.{IsStrictlySortedBy};
ghost use Rattle.ifmap_requests.specs.ifmap_filter.Meets.{meets_optional};
ghost use Rattle.ifmap_meta.specs.Whole.{IsWhole};
ghost use Rattle.ifmap_rows.specs.ifmap_plans.Lists.{is_among};
ghost use Rattle.ifmap_rows.specs.ifmap_plans.Plans.{AreWhole};
ghost use Rattle.ifmap_view.specs.Attachments.{IsGraph, stored_order};
ghost use Rattle.ifmap_view.specs.Rows.{stored_on};
ghost use Rattle.ifmap_publish.specs.OnItems.{attach_all, delete_on};
ghost use Rattle.ifmap_publish.specs.Working.{AreKeyed, EditMakes, IsEdit, IsSound, PassesOneStored, after_like, is_keyed, list_by, over_keys};

use ifmap_elem::Many;
use ifmap_ident::Item;
use ifmap_requests::{Filter, meets_optional};
use ifmap_rows::{Keyed, Rows, put_rows, row_order};
use ifmap_view::{Row, View};
use std::alloc::{AllocError as NoMemory, Global};
use std::cmp::Ordering;
use std::slice;

/// What is taken from what is stored on an item, in order, and what is put there. All else stays.
#[derive(Drop)]
pub struct Edit {
    pub taken: Many<Row>,
    pub put: Rows,
}

// Nothing is taken, and nothing is put.
pub(crate) fn no_edit(alloc: Global) -> Edit
    ensures taken { result.taken ≡ [] }
    ensures put { result.put ≡ [] }
{
    Edit {
        taken: Many(Vec::new(alloc)),
        put: Rows::new(alloc),
    }
}

// Rows more on an item, from left to right, each instead of the one with its key: of those of one key
// only the last is put, and all of them at once.
pub(crate) fn attach_each<V: Keyed>(
    alloc: Global,
    view: &V,
    item: &Item,
    rows: &[Row],
    edit: &mut Edit,
) -> Result<(), NoMemory>
    requires graph { IsGraph (V.rows view.now) }
    requires whole { AreWhole (V.rows view.now) }
    requires rows { AllByRecursion IsWhole rows.now }
    requires edit { IsEdit (stored_on item.now (V.rows view.now)) edit.old }
    ensures { OnOk result (EditMakes (stored_on item.now (V.rows view.now)) edit.new
        (attach_all (list_by edit.old (stored_on item.now (V.rows view.now))) rows.now)) }
{
    let last = keep_last(alloc, rows)?;
    take_keys(alloc, view, item, last.as_slice(), &mut edit.taken.0)?;
    put_over_keys(alloc, &mut edit.put, last.as_slice())?;
    Ok(())
}

// Of so many rows each is put after the other.
const FEW: usize = 64;

// The rows that are left of these where each comes instead of the one with its key. Of many, each half is
// done alone, and the later one is put over the earlier one, so that no row is moved often.
fn keep_last(alloc: Global, rows: &[Row]) -> Result<Rows, NoMemory>
    requires { AllByRecursion IsWhole rows.now }
    ensures { IfOk result (λ last. last ≡ attach_all [] rows.now) }
{
    if rows.len() <= FEW {
        return keep_last_of_few(alloc, rows);
    }
    let (front, rest) = rows.split_at(rows.len() / 2);
    let mut last = keep_last(alloc, front)?;
    let more = keep_last(alloc, rest)?;
    put_over_keys(alloc, &mut last, more.as_slice())?;
    Ok(last)
}

// The same, one after the other.
fn keep_last_of_few(alloc: Global, rows: &[Row]) -> Result<Rows, NoMemory>
    requires { AllByRecursion IsWhole rows.now }
    ensures { IfOk result (λ last. last ≡ attach_all [] rows.now) }
{
    let mut last = Rows::new(alloc);
    for row in rows {
        put_over_keys(alloc, &mut last, slice::from_ref(row))?;
    }
    Ok(last)
}

// Rows more among those that are put, instead of those with their keys.
fn put_over_keys(alloc: Global, put: &mut Rows, more: &[Row]) -> Result<(), NoMemory>
    requires put { IsSound put.old }
    requires more { AllByRecursion IsWhole more.now }
    ensures { OnOk result (put.new ≡ over_keys put.old more.now) }
{
    let found = share_keyed(alloc, put, more)?;
    put.exchange(&found, more)
}

// The rows that have the key of one of some, in order.
fn share_keyed(alloc: Global, rows: &Rows, keys: &[Row]) -> Result<Vec<Row>, NoMemory>
    requires rows { IsSound rows.now }
    requires keys { AllByRecursion IsWhole keys.now }
    ensures { IfOk result (λ found. AreKeyed rows.now keys.now found.items) }
{
    let mut found = Vec::new(alloc);
    for row in keys {
        if let Some(other) = rows.row_with_key(row) {
            found.push(other.share()?)?;
        }
    }
    found.sort_by(|one, other| row_order(one, other))?;
    Ok(found)
}

// Takes what is stored under the keys of some rows. What was taken before stays so.
fn take_keys<V: Keyed>(
    alloc: Global,
    view: &V,
    item: &Item,
    keys: &[Row],
    taken: &mut Vec<Row>,
) -> Result<(), NoMemory>
    requires graph { IsGraph (V.rows view.now) }
    requires whole { AreWhole (V.rows view.now) }
    requires keys { AllByRecursion IsWhole keys.now }
    requires taken { taken.old.items
        ≡ filter (is_among taken.old.items) (stored_on item.now (V.rows view.now)) }
    ensures { OnOk result (taken.new.items
        ≡ filter (λ s. is_among taken.old.items s || is_keyed keys.now s)
        (stored_on item.now (V.rows view.now))) }
{
    let found = share_stored(alloc, view, item, keys)?;
    put_rows(taken, &found)
}

// What is stored under the keys of some rows, in order.
fn share_stored<V: Keyed>(
    alloc: Global,
    view: &V,
    item: &Item,
    keys: &[Row],
) -> Result<Vec<Row>, NoMemory>
    requires graph { IsGraph (V.rows view.now) }
    requires whole { AreWhole (V.rows view.now) }
    requires keys { AllByRecursion IsWhole keys.now }
    ensures { IfOk result (λ found.
        AreKeyed (stored_on item.now (V.rows view.now)) keys.now found.items) }
{
    let mut found = Vec::new(alloc);
    for row in keys {
        if let Some(other) = view.row_with_key(item, row) {
            found.push(other.share()?)?;
        }
    }
    found.sort_by(|one, other| row_order(one, other))?;
    Ok(found)
}

// Takes what meets the filter from an item.
pub(crate) fn delete<V: View>(
    alloc: Global,
    view: &V,
    item: &Item,
    filter: &Option<Filter>,
    edit: &mut Edit,
) -> Result<(), NoMemory>
    requires graph { IsGraph (V.rows view.now) }
    requires whole { AreWhole (V.rows view.now) }
    requires edit { IsEdit (stored_on item.now (V.rows view.now)) edit.old }
    ensures { OnOk result (EditMakes (stored_on item.now (V.rows view.now)) edit.new
        (delete_on (list_by edit.old (stored_on item.now (V.rows view.now))) filter.now)) }
{
    let met = share_others_met(alloc, view.stored_at(item), filter, edit.taken.as_slice())?;
    put_rows(&mut edit.taken.0, &met)?;
    let left = share_met(alloc, edit.put.as_slice(), filter)?;
    edit.put.carry_out(&left, &[])?;
    Ok(())
}

// The rows that meet the filter and are not taken: where all are taken, none is looked at.
fn share_others_met(
    alloc: Global,
    rows: &[Row],
    test: &Option<Filter>,
    taken: &[Row],
) -> Result<Vec<Row>, NoMemory>
    requires rows { IsStrictlySortedBy stored_order rows.now }
    requires taken { taken.now ≡ filter (is_among taken.now) rows.now }
    ensures { IfOk result (λ met. met.items
        ≡ filter (λ s. not (is_among taken.now s) && meets_optional test.now s.element)
        rows.now) }
{
    let mut met = Vec::new(alloc);
    if taken.len() == rows.len() {
        return Ok(met);
    }
    let mut rest = taken;
    for row in rows {
        rest = pass_row(rest, row, test, &mut met)?;
    }
    Ok(met)
}

// Passes a row: where it is the first of those that are taken, what is taken after it is left, else it is
// appended if it meets the filter.
fn pass_row<'a>(
    taken: &'a [Row],
    row: &Row,
    test: &Option<Filter>,
    met: &mut Vec<Row>,
) -> Result<&'a [Row], NoMemory>
    ensures { IfOk result (λ rest. PassesOneStored (λ s. meets_optional test.now s.element)
        row.now taken.now rest.now met.old.items met.new.items) }
{
    match after_like(taken, row) {
        Some(after) => Ok(after),
        None => {
            add_if_met(row, test, met)?;
            Ok(taken)
        }
    }
}

// Appends a row that meets the filter.
fn add_if_met(row: &Row, test: &Option<Filter>, met: &mut Vec<Row>) -> Result<(), NoMemory>
    ensures { OnOk result (met.new.items
        ≡ met.old.items ++ filter (λ s. meets_optional test.now s.element) (row.now ∷ [])) }
{
    if !meets_optional(test, row.stored_element().element.element()) {
        return Ok(());
    }
    met.push(row.share()?)?;
    Ok(())
}

// What follows the first row, where that has the canonical bytes of this one.
fn after_like<'a>(rows: &'a [Row], row: &Row) -> Option<&'a [Row]>
    ensures { MatchOption result (after_like row.now rows.now ≡ None)
        (λ after. after_like row.now rows.now ≡ Some after.now) }
{
    let (first, after) = rows.split_first()?;
    match row_order(first, row) {
        Ordering::Equal => Some(after),
        Ordering::Less | Ordering::Greater => None,
    }
}

// The rows that meet the filter.
fn share_met(alloc: Global, rows: &[Row], test: &Option<Filter>) -> Result<Vec<Row>, NoMemory>
    ensures { IfOk result (λ list. list.items
        ≡ filter (λ s. meets_optional test.now s.element) rows.now) }
{
    let mut list = Vec::new(alloc);
    for row in rows {
        if meets_optional(test, row.stored_element().element.element()) {
            list.push(row.share()?)?;
        }
    }
    Ok(list)
}
