//! Rows are made room for, exchanged and swept. None of it but making room takes memory.
ghost use Rattle.std.specs.Prelude.{◌≡◌, ℕ, ◌+◌, ◌<◌, ◌≤◌, ◌⊎◌, Some, None, true, false, nat_eq, IsSome, IsOk, OnOk, OnErr};
ghost use Rattle.std.specs.Map.{update};
ghost use Rattle.indexmap.specs.IndexMap.{spare, insert_entry};
ghost use Rattle.ifmap_region.specs.Marks.{row_of, mark_of};
ghost use Rattle.ifmap_region.specs.Ways.{HasRoom, HasSpare, missing_count, OnlyRoom, Makes, Sweeps, Exchanges, taken_from};

use crate::rows::{MarkRows, has_row, mark_in};
use std::alloc::AllocError as NoMemory;

// Puts a row in where there is room for one, or the number has one. It takes no memory.
fn put_within(rows: &mut MarkRows, number: u64, mark: Option<u32>)
    requires { (0 < spare rows.old) ⊎ IsSome (row_of rows.old.entries number) }
    ensures put { (q : ℕ)
        → row_of rows.new.entries q ≡ update nat_eq (row_of rows.old.entries) number (Some mark) q }
    ensures entries { rows.new.entries ≡ insert_entry nat_eq rows.old.entries number mark }
    ensures spare { spare rows.old ≤ spare rows.new + 1 }
{
    match rows.insert(number, mark) {
        Ok(_) => (),
        Err(_) => unreachable!(),
    }
}

// Whether the number has a row without a mark.
fn has_bare_row(rows: &MarkRows, number: u64) -> bool
    ensures yes { result ≡ true → row_of rows.now.entries number ≡ Some None }
    ensures no { result ≡ false → row_of rows.now.entries number ≡ Some None → ⊥ }
{
    match rows.get(&number) {
        Some(row) => row.is_none(),
        None => false,
    }
}

// How many numbers of `patch` have no row.
fn count_missing(rows: &MarkRows, patch: &MarkRows) -> usize
    ensures { result ≡ missing_count rows.now.entries patch.now.entries }
{
    let mut count: usize = 0;
    for i in 0..patch.len() {
        if let Some((number, _)) = patch.get_index(i) {
            if !has_row(rows, *number) {
                count += 1;
            }
        }
    }
    count
}

// Makes room for the numbers of `patch`: each that has no row gets one without a mark.
pub(crate) fn make_room(rows: &mut MarkRows, patch: &MarkRows) -> Result<(), NoMemory>
    ensures room { OnOk result (HasRoom patch.now.entries rows.new.entries) }
    ensures only { OnOk result (OnlyRoom patch.now.entries rows.old.entries rows.new.entries) }
    ensures err { OnErr result (rows.new.entries ≡ rows.old.entries) }
    ensures succeeds { HasSpare patch.now.entries rows.old → IsOk result }
{
    rows.reserve(count_missing(rows, patch))?;
    for i in 0..patch.len() {
        if let Some((number, _)) = patch.get_index(i) {
            if !has_row(rows, *number) {
                put_within(rows, *number, None);
            }
        }
    }
    Ok(())
}

// Exchanges the marks of the numbers of `patch` with those that `patch` has.
pub(crate) fn exchange(rows: &mut MarkRows, patch: &mut MarkRows)
    requires { HasRoom patch.old.entries rows.old.entries }
    ensures makes { Makes patch.old.entries rows.old.entries rows.new.entries }
    ensures taken { patch.new.entries ≡ taken_from (mark_of rows.old.entries) patch.old.entries }
{
    for i in 0..patch.len() {
        exchange_at(rows, patch, i);
    }
}

// Exchanges the mark of the number at a place of `patch` with the one that `patch` has.
fn exchange_at(rows: &mut MarkRows, patch: &mut MarkRows, i: usize)
    requires { HasRoom patch.old.entries rows.old.entries }
    ensures { Exchanges i rows.old.entries patch.old.entries rows.new.entries patch.new.entries }
{
    if let Some((number, row)) = patch.get_index(i) {
        let number = *number;
        let row = *row;
        let before = mark_in(rows, number);
        put_within(rows, number, row);
        put_within(patch, number, before);
    }
}

// Takes out the rows of the numbers of `patch` that have no mark.
pub(crate) fn sweep(rows: &mut MarkRows, patch: &MarkRows)
    ensures { Sweeps patch.now.entries rows.old.entries rows.new.entries }
{
    for i in 0..patch.len() {
        if let Some((number, _)) = patch.get_index(i) {
            if has_bare_row(rows, *number) {
                rows.swap_remove(number);
            }
        }
    }
}
