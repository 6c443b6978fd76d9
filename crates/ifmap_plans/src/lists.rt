//! What is stored on an item, in its order: where a row stands there, and one more row.
ghost use Rattle.std.specs.Prelude.{◌≡◌, OnOk};
ghost use Rattle.std.specs.List.Sorted.{IsStrictlySortedBy};
ghost use Rattle.ifmap_plans.specs.Placing.{IsSpot, put};
ghost use Rattle.ifmap_view.specs.Attachments.{stored_bytes, stored_order};

use ifmap_view::Row;
use std::alloc::AllocError as NoMemory;
use std::cmp::Ordering;

/// How two rows of an item stand to each other: by their canonical bytes, which are not made for it.
pub fn row_order(one: &Row, other: &Row) -> Ordering
    ensures { result ≡ stored_order one.now other.now }
{
    bytes_of(one).cmp(bytes_of(other))
}

/// The canonical bytes of what is stored.
#[tactic(auto, unfolding(ifmap_view::specs::Attachments::stored_bytes))]
pub fn bytes_of(row: &Row) -> &[u8]
    ensures { result.now ≡ stored_bytes row.now }
{
    row.stored_element().element.bytes()
}

/// Where a row stands among some that rise, by its canonical bytes, or where it would: it is found by
/// halving.
pub fn place_of(rows: &[Row], row: &Row) -> Result<usize, usize>
    requires { IsStrictlySortedBy stored_order rows.now }
    ensures { IsSpot stored_order row.now rows.now result }
{
    rows.binary_search_by(|other| row_order(other, row))
}

/// Puts a row in its place, instead of the one with its canonical bytes, if there is one. The one error
/// is want of memory.
pub fn put_row(list: &mut Vec<Row>, row: Row) -> Result<(), NoMemory>
    requires { IsStrictlySortedBy stored_order list.old.items }
    ensures { OnOk result (list.new.items ≡ put stored_order row list.old.items) }
{
    match place_of(list, &row) {
        Ok(place) => list[place] = row,
        Err(place) => list.insert(place, row)?,
    }
    Ok(())
}
