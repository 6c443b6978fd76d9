//! Rows are found by their keys, also where two keys have one word.
use crate::makers::{row_with, rows_of};
use ifmap_rows::Rows;
use ifmap_view::Row;
use std::alloc::Global;
use std::test::Fail;

// Two texts of which the words are the same.
const ONE: &str = "pnmrlnjjmorppnkm";

const OTHER: &str = "knojonqqomjlkmqo";

fn have_one_word(one: &Row, other: &Row) -> bool {
    one.stored_element().key_word() == other.stored_element().key_word()
}

// Whether each of the first two rows is found by its key, and the third by none.
fn finds_two(rows: &Rows, one: &Row, other: &Row, third: &Row) -> bool {
    let finds = |row: &Row| rows.row_with_key(row).is_some_and(|found| found
        .stored_element()
        .same_key(row.stored_element()));
    finds(one) && finds(other) && rows.row_with_key(third).is_none()
}

// Puts both rows at once.
fn put_both(rows: &mut Rows, one: &Row, other: &Row) -> Option<()> {
    rows.carry_out(&[], &[one.share().ok()?, other.share().ok()?])
        .ok()
}

// Whether rows with these texts are found by their keys among others, and by no other key.
fn are_told_apart(alloc: Global) -> Option<bool> {
    let one = row_with(alloc, ONE)?;
    let other = row_with(alloc, OTHER)?;
    let third = row_with(alloc, "pnmrlnjjmorppnkn")?;
    let mut rows = rows_of(alloc, &[row_with(alloc, "a")?, row_with(alloc, "z")?]).ok()?;
    let none = rows.row_with_key(&one).is_none();
    put_both(&mut rows, &one, &other)?;
    let apart = have_one_word(&one, &other) && !have_one_word(&one, &third);
    Some(none && apart && finds_two(&rows, &one, &other, &third))
}

#[test]
fn two_keys_of_one_word_are_told_apart(rt: HostRuntime) -> Result<(), Fail> {
    assert!(rt; are_told_apart(rt.alloc()) == Some(true));
    Ok(())
}
