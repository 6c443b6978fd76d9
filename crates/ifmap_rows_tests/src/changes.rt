//! Rows go and come, few and many at once.
use crate::makers::{numbered_rows, rows_of};
use ifmap_plans::row_order;
use ifmap_rows::{Rows, put_rows};
use ifmap_view::{Row, share_rows};
use std::alloc::Global;
use std::test::Fail;

// Whether rows are these, and each is found by its key.
fn are_these(rows: &Rows, wanted: &[Row]) -> bool {
    rows.as_slice().len() == wanted.len()
        && rows.as_slice().iter().zip(wanted).all(|(row, wanted)| row_order(row, wanted).is_eq()
            && rows.row_with_key(row).is_some())
}

// Takes every fourth of so many rows away: whether just the others are left.
fn takes_fourths(alloc: Global, count: u32, rows: &mut Rows, all: &[Row]) -> Option<bool> {
    let removed = numbered_rows(alloc, count, 4)?;
    rows.carry_out(&removed, &[]).ok()?;
    let left = rows.as_slice().len() + removed.len() == all.len();
    Some(left && removed.iter().all(|row| rows.row_with_key(row).is_none()))
}

// Puts every second of so many rows, of which half are there: whether there are all then.
fn puts_seconds(alloc: Global, count: u32, rows: &mut Rows, all: &[Row]) -> Option<bool> {
    rows.carry_out(&[], &numbered_rows(alloc, count, 2)?).ok()?;
    Some(are_these(rows, all) && rows.room() >= all.len())
}

// Every fourth of so many rows goes, and then every second is put, of which half are there.
fn changes_well(alloc: Global, count: u32) -> Option<bool> {
    let all = numbered_rows(alloc, count, 1)?;
    let mut rows = rows_of(alloc, &all).ok()?;
    let before = rows.share(alloc).ok()?;
    let left = takes_fourths(alloc, count, &mut rows, &all)?;
    let put = puts_seconds(alloc, count, &mut rows, &all)?;
    Some(left && put && are_these(&before, &all))
}

// The rows that are left beside others where every fourth goes, if just those are.
fn rest_of(alloc: Global, count: u32, rows: &Rows, all: &[Row]) -> Option<Rows> {
    let removed = numbered_rows(alloc, count, 4)?;
    let left = rows.make_next(alloc, &removed, &[]).ok()?;
    let right = left.as_slice().len() + removed.len() == all.len()
        && removed.iter().all(|row| left.row_with_key(row).is_none());
    right.then_some(left)
}

// Whether every second row that is put beside those that are left makes all, as in a list.
fn fills_up(alloc: Global, count: u32, left: &Rows, all: &[Row]) -> Option<bool> {
    let added = numbered_rows(alloc, count, 2)?;
    let next = left.make_next(alloc, &[], &added).ok()?;
    let mut list = share_rows(alloc, left.as_slice()).ok()?;
    put_rows(&mut list, &added).ok()?;
    Some(are_these(&next, all) && are_these(&next, &list))
}

// Every fourth of so many rows goes, and then every second is put, each time beside the rows that stay
// as they are.
fn makes_next_well(alloc: Global, count: u32) -> Option<bool> {
    let all = numbered_rows(alloc, count, 1)?;
    let rows = rows_of(alloc, &all).ok()?;
    let left = rest_of(alloc, count, &rows, &all)?;
    Some(fills_up(alloc, count, &left, &all)? && are_these(&rows, &all))
}

#[test]
fn next_rows_are_made_beside_others(rt: HostRuntime) -> Result<(), Fail> {
    let alloc = rt.alloc();
    for count in [0, 1, 40, 2400] {
        assert!(rt; makes_next_well(alloc, count) == Some(true), "{count}");
    }
    Ok(())
}

#[test]
fn rows_go_and_come(rt: HostRuntime) -> Result<(), Fail> {
    let alloc = rt.alloc();
    for count in [0, 1, 40, 2400] {
        assert!(rt; changes_well(alloc, count) == Some(true), "{count}");
    }
    Ok(())
}
