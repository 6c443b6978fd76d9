//! What goes and what comes between two lists of an item.
ghost use Rattle.std.specs.Prelude.{◌≡◌, ◌∷◌, false, IfOk, MatchOption};
ghost use Rattle.std.specs.List.{AllByRecursion, list_any};
ghost use Rattle.std.specs.List.Sorted.{IsStrictlySortedBy};
ghost use Rattle.std.specs.Ordering.{is_lt};
ghost use Rattle.std.specs.Str.{bytes_eq};
ghost use Rattle.std.specs.declared.cmp.Ordering.TheVariants.{Less};
ghost use Rattle.ifmap_meta.specs.declared.stored.Stored.{Stored};
ghost use Rattle.ifmap_rows.specs.ifmap_plans.Lists.{stored_difference, same_life, same_stored};
ghost use Rattle.ifmap_view.specs.Attachments.{stored_bytes, stored_order};

use ifmap_meta::{Life, Stored};
use ifmap_rows::{bytes_of, row_order};
use ifmap_view::Row;
use std::alloc::{AllocError as NoMemory, Global};
use std::cmp::Ordering;

// What is in the first list and not in the second: one pass over both.
pub(crate) fn difference(alloc: Global, one: &[Row], other: &[Row]) -> Result<Vec<Row>, NoMemory>
    requires one { IsStrictlySortedBy stored_order one.now }
    requires other { IsStrictlySortedBy stored_order other.now }
    ensures { IfOk result (λ rows. rows.items ≡ stored_difference one.now other.now) }
{
    let mut made = Vec::new(alloc);
    let mut rest = other;
    for row in one {
        rest = from_row(rest, row);
        if !begins_with(rest, row) {
            made.push(row.share()?)?;
        }
    }
    Ok(made)
}

// The rows that are not below this one.
fn from_row<'a>(rows: &'a [Row], row: &Row) -> &'a [Row]
    requires { IsStrictlySortedBy stored_order rows.now }
    ensures rising { IsStrictlySortedBy stored_order result.now }
    ensures from { AllByRecursion (λ s. is_lt (stored_order s row.now) ≡ false) result.now }
    ensures same { (s : Stored) → is_lt (stored_order s row.now) ≡ false
        → list_any (same_stored s) result.now ≡ list_any (same_stored s) rows.now }
{
    let mut rest = rows;
    while let Some(after) = after_below(rest, row) {
        rest = after;
    }
    rest
}

// What follows the first row, where that is below this one.
#[tactic(auto, using(crate::proofs::Passing::all_from, crate::proofs::Passing::none_from))]
fn after_below<'a>(rows: &'a [Row], row: &Row) -> Option<&'a [Row]>
    requires { IsStrictlySortedBy stored_order rows.now }
    ensures { MatchOption result
        (AllByRecursion (λ s. is_lt (stored_order s row.now) ≡ false) rows.now)
        (λ after. (first : Stored) × (rows.now ≡ first ∷ after.now)
        × (stored_order first row.now ≡ Less)) }
{
    let (first, after) = rows.split_first()?;
    match row_order(first, row) {
        Ordering::Less => Some(after),
        Ordering::Equal | Ordering::Greater => None,
    }
}

// Whether the first of them is this one, with its publisher and lifetime.
#[tactic(auto, using(crate::proofs::Passing::none_first))]
fn begins_with(rows: &[Row], row: &Row) -> bool
    requires rising { IsStrictlySortedBy stored_order rows.now }
    requires from { AllByRecursion (λ s. is_lt (stored_order s row.now) ≡ false) rows.now }
    ensures { result ≡ list_any (same_stored row.now) rows.now }
{
    match rows.split_first() {
        Some((first, _)) => same_stored(row, first),
        None => false,
    }
}

// Whether both are one stored element, of one publisher, for one lifetime.
fn same_stored(one: &Row, other: &Row) -> bool
    ensures { result ≡ same_stored one.now other.now }
{
    same_bytes(one, other)
        && same_publisher(one.stored_element(), other.stored_element())
        && same_life(one.stored_element().life, other.stored_element().life)
}

fn same_bytes(one: &Row, other: &Row) -> bool
    ensures { result ≡ bytes_eq (stored_bytes one.now) (stored_bytes other.now) }
{
    bytes_of(one) == bytes_of(other)
}

fn same_publisher(one: &Stored, other: &Stored) -> bool
    ensures { result ≡ bytes_eq one.now.publisher other.now.publisher }
{
    one.publisher == other.publisher
}

fn same_life(one: Life, other: Life) -> bool
    ensures { result ≡ same_life one other }
{
    match (one, other) {
        (Life::Session(a), Life::Session(b)) => a == b,
        (Life::Forever, Life::Forever) => true,
        _ => false,
    }
}
