//! Rows in the order of their canonical bytes: one is taken out or put in, or many at once.
ghost use Rattle.std.specs.Prelude.{◌≡◌, ◌<◌, false, IfNone, IfOk, IfSome, IsTrue, OnOk, vec_capacity, vec_len};
ghost use Rattle.std.specs.List.{list_any};
ghost use Rattle.std.specs.List.Sorted.{IsStrictlySortedBy};
ghost use Rattle.std.specs.Ordering.{eq_by_cmp, is_lt};
ghost use Rattle.std.specs.declared.cmp.Ordering.TheVariants.{Equal};
ghost use Rattle.ifmap_lemmas.specs.Having.{Has};
ghost use Rattle.ifmap_plans.specs.Lists.{list_without, put_each};
ghost use Rattle.ifmap_plans.specs.Placing.{put};
ghost use Rattle.ifmap_plans.specs.ifmap_view.Attachments.{stored_order};
ghost use Rattle.ifmap_rows.specs.Indexed.{without_one};

use ifmap_plans::{Row, place_of, put_row, row_order, share_rows};
use std::alloc::{AllocError as NoMemory, Global};
use std::mem;

// Takes out the row of these canonical bytes, where there is one.
pub(crate) fn take_row(rows: &mut Vec<Row>, row: &Row) -> Option<Row>
    requires { IsStrictlySortedBy stored_order rows.old.items }
    ensures rows { rows.new.items ≡ without_one stored_order row.now rows.old.items }
    ensures taken { IfSome result (λ taken.
        Has rows.old.items taken × (stored_order taken row.now ≡ Equal)) }
    ensures none { IfNone result (rows.new.items ≡ rows.old.items) }
{
    match place_of(rows, row) {
        Ok(place) => Some(rows.remove(place)),
        Err(_) => None,
    }
}

// Puts a row in its place, where there is room for one more, and hands out the row of these
// canonical bytes that stood there.
pub(crate) fn exchange_row(rows: &mut Vec<Row>, row: Row) -> Option<Row>
    requires rising { IsStrictlySortedBy stored_order rows.old.items }
    requires room { vec_len rows.old < vec_capacity rows.old }
    ensures rows { rows.new.items ≡ put stored_order row rows.old.items }
    ensures replaced { IfSome result (λ replaced.
        Has rows.old.items replaced × (stored_order replaced row ≡ Equal)) }
    ensures none { IfNone result
        (list_any (λ s. eq_by_cmp stored_order s row) rows.old.items ≡ false) }
{
    match place_of(rows, &row) {
        Ok(place) => Some(mem::replace(&mut rows[place], row)),
        Err(place) => {
            rows.insert(place, row).unwrap();
            None
        }
    }
}

// Takes out the rows that have the canonical bytes of one of some that rise: the rows are gone over
// once.
pub(crate) fn take_rows(rows: &mut Vec<Row>, removed: &[Row])
    requires { IsStrictlySortedBy stored_order removed.now }
    ensures { rows.new.items ≡ list_without removed.now rows.old.items }
{
    rows.retain(|row| !is_among(removed, row));
}

/// Puts rows in their places, one after the other, each over the one of its canonical bytes, if there
/// is one: many that rise are put at once. The one error is want of memory, and nothing is claimed of
/// the rows then.
pub fn put_rows(rows: &mut Vec<Row>, added: &[Row]) -> Result<(), NoMemory>
    requires { IsStrictlySortedBy stored_order rows.old.items }
    ensures { OnOk result (rows.new.items ≡ put_each added.now rows.old.items) }
{
    if are_many_in_order(added) {
        join_rows(rows, added)
    } else {
        put_each(rows, added)
    }
}

// The same, one after the other.
fn put_each(rows: &mut Vec<Row>, added: &[Row]) -> Result<(), NoMemory>
    requires { IsStrictlySortedBy stored_order rows.old.items }
    ensures { OnOk result (rows.new.items ≡ put_each added.now rows.old.items) }
{
    for row in added {
        put_row(rows, row.share()?)?;
    }
    Ok(())
}

// Puts rows that rise in their places, each over the one of the same bytes. The one error is want of
// memory.
pub(crate) fn join_rows(rows: &mut Vec<Row>, added: &[Row]) -> Result<(), NoMemory>
    requires rising { IsStrictlySortedBy stored_order rows.old.items }
    requires added { IsStrictlySortedBy stored_order added.now }
    ensures { OnOk result (rows.new.items ≡ put_each added.now rows.old.items) }
{
    take_rows(rows, added);
    merge_rows(rows, added)?;
    Ok(())
}

// Puts rows that rise in their places among others, of which none has the bytes of one of them: two
// runs, which the sort merges. The one error is want of memory.
pub(crate) fn merge_rows(rows: &mut Vec<Row>, added: &[Row]) -> Result<(), NoMemory>
    requires rising { IsStrictlySortedBy stored_order rows.old.items }
    requires added { IsStrictlySortedBy stored_order added.now }
    requires apart { list_without added.now rows.old.items ≡ rows.old.items }
    ensures { OnOk result (rows.new.items ≡ put_each added.now rows.old.items) }
{
    let mut more = share_rows(*rows.allocator(), added)?;
    rows.append(&mut more)?;
    rows.sort_by(|one, other| row_order(one, other))?;
    Ok(())
}

// The rows that have not the canonical bytes of one of some that rise, once more, with room for
// others. The one error is want of memory.
pub(crate) fn share_others(
    alloc: Global,
    rows: &[Row],
    removed: &[Row],
    more: usize,
) -> Result<Vec<Row>, NoMemory>
    requires { IsStrictlySortedBy stored_order removed.now }
    ensures { IfOk result (λ others. others.items ≡ list_without removed.now rows.now) }
{
    let room = room_for(rows.len(), removed.len(), more);
    let mut others = Vec::with_capacity(alloc, room)?;
    for row in rows {
        if !is_among(removed, row) {
            others.push(row.share()?)?;
        }
    }
    Ok(others)
}

// Room for so many rows, of which some go, and for more.
pub(crate) fn room_for(length: usize, removed: usize, more: usize) -> usize {
    length.saturating_sub(removed).saturating_add(more)
}

// To go along all rows once costs as much as some hundreds that go or come one after the other, however
// many there are: of these, each moves the pointers that follow it and looks at few rows.
const FEW: usize = 512;

// Whether rows that go or come are done by going along all rows once: they are many, and rise by their
// canonical bytes.
pub(crate) fn are_many_in_order(rows: &[Row]) -> bool
    ensures { IsTrue result → IsStrictlySortedBy stored_order rows.now }
{
    rows.len() > FEW && do_rise(rows)
}

// Whether a row of the same canonical bytes is among some that rise.
pub(crate) fn is_among(rows: &[Row], row: &Row) -> bool
    requires { IsStrictlySortedBy stored_order rows.now }
    ensures { result ≡ list_any (λ r. eq_by_cmp stored_order r row.now) rows.now }
{
    place_of(rows, row).is_ok()
}

// Whether rows rise by their canonical bytes.
fn do_rise(rows: &[Row]) -> bool
    ensures { IsTrue result → IsStrictlySortedBy stored_order rows.now }
{
    for i in 1..rows.len() {
        if !is_less(&rows[i - 1], &rows[i]) {
            return false;
        }
    }
    true
}

fn is_less(one: &Row, other: &Row) -> bool
    ensures { result ≡ is_lt (stored_order one.now other.now) }
{
    row_order(one, other).is_lt()
}
