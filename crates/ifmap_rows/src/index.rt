//! The index: rows in the order of the words of their keys.
ghost use Rattle.std.specs.Prelude.{◌≡◌, ◌<◌, ◌≤◌, Contains, IfNone, IfOk, IfSome, vec_capacity, vec_len};
ghost use Rattle.std.specs.List.{AllByRecursion};
ghost use Rattle.std.specs.List.Sorted.{IsStrictlySortedBy};
ghost use Rattle.ifmap_meta.specs.Keys.{HaveOneKey, word_of};
ghost use Rattle.ifmap_plans.specs.Lists.{list_without};
ghost use Rattle.ifmap_plans.specs.Placing.{IsSpot, put};
ghost use Rattle.ifmap_plans.specs.ifmap_view.Attachments.{stored_order};
ghost use Rattle.ifmap_rows.specs.Indexed.{IsJoined, without_one, word_order};

use crate::lists::{is_among, room_for};
use ifmap_plans::{Row, row_order};
use std::alloc::{AllocError as NoMemory, Global};
use std::cmp::Ordering;
use std::marker::Model;

// A row with the word of its key. Contracts see what is stored.
#[derive(Drop)]
pub(crate) struct WordRow {
    word: u64,
    row: Row,
}

impl Model for WordRow {
    ghost use Rattle.std.specs.Prelude.{◌≡◌};
    ghost use Rattle.ifmap_meta.specs.contracts.stored.Stored as the_stored;
    ghost use Rattle.ifmap_meta.specs.declared.stored.Stored.{Stored};
    ghost use Rattle.ifmap_meta.specs.Keys.{word_of};

    ghost Value = { Stored };

    ghost coded = { the_stored.the_row.coded };

    ghost view = { λ worded. worded.row };

    ghost invariant = { λ worded. worded.word ≡ word_of worded.row };
}

impl WordRow {
    pub(crate) fn new(row: Row) -> WordRow
        ensures { result ≡ row }
    {
        WordRow {
            word: row_word(&row),
            row,
        }
    }

    // The same row once more. The one error is that it is shared too often.
    fn share(&self) -> Result<WordRow, NoMemory>
        ensures { IfOk result (λ worded. worded ≡ self.now) }
    {
        Ok(WordRow {
            word: self.word,
            row: self.row.share()?,
        })
    }

    fn word(&self) -> u64
        ensures { result ≡ word_of self.now }
    {
        self.word
    }

    fn row(&self) -> &Row
        ensures { result.now ≡ self.now }
    {
        &self.row
    }
}

fn row_word(row: &Row) -> u64
    ensures { result ≡ word_of row.now }
{
    row.stored_element().key_word()
}

// How two rows stand to each other in the index.
fn word_order(one: &WordRow, other: &WordRow) -> Ordering
    ensures { result ≡ word_order one.now other.now }
{
    match one.word().cmp(&other.word()) {
        Ordering::Equal => row_order(one.row(), other.row()),
        unequal => unequal,
    }
}

// Where a row stands in the index, or would.
fn find_spot(index: &[WordRow], worded: &WordRow) -> Result<usize, usize>
    requires { IsStrictlySortedBy word_order index.now }
    ensures { IsSpot word_order worded.now index.now result }
{
    index.binary_search_by(|other| word_order(other, worded))
}

// Takes a row out of the index.
pub(crate) fn take_word_row(index: &mut Vec<WordRow>, worded: &WordRow)
    requires { IsStrictlySortedBy word_order index.old.items }
    ensures rows { index.new.items ≡ without_one word_order worded.now index.old.items }
    ensures rising { IsStrictlySortedBy word_order index.new.items }
    ensures len { vec_len index.new ≤ vec_len index.old }
    ensures capacity { vec_capacity index.new ≡ vec_capacity index.old }
{
    if let Ok(spot) = find_spot(index, worded) {
        index.remove(spot);
    }
}

// Puts a row in its place in the index, where there is room for one more.
pub(crate) fn put_word_row(index: &mut Vec<WordRow>, worded: WordRow)
    requires rising { IsStrictlySortedBy word_order index.old.items }
    requires room { vec_len index.old < vec_capacity index.old }
    ensures { index.new.items ≡ put word_order worded index.old.items }
{
    match find_spot(index, &worded) {
        Ok(spot) => index[spot] = worded,
        Err(spot) => index.insert(spot, worded).unwrap(),
    }
}

// Puts a row in its place in the index, where there is room for one more, and the one that it
// replaces goes.
pub(crate) fn exchange_word_row(index: &mut Vec<WordRow>, replaced: Option<Row>, row: Row)
    requires rising { IsStrictlySortedBy word_order index.old.items }
    requires room { vec_len index.old < vec_capacity index.old }
    ensures replaced { IfSome replaced (λ replaced. index.new.items
        ≡ put word_order row (without_one word_order replaced index.old.items)) }
    ensures none { IfNone replaced (index.new.items ≡ put word_order row index.old.items) }
{
    match replaced {
        Some(replaced) => {
            take_word_row(index, &WordRow::new(replaced));
            put_word_row(index, WordRow::new(row));
        }
        None => put_word_row(index, WordRow::new(row)),
    }
}

// Takes out of the index the rows that have the canonical bytes of one of some that rise: the index
// is gone over once.
pub(crate) fn take_word_rows(index: &mut Vec<WordRow>, removed: &[Row])
    requires { IsStrictlySortedBy stored_order removed.now }
    ensures { index.new.items ≡ list_without removed.now index.old.items }
{
    index.retain(|worded| !is_among(removed, worded.row()));
}

// An index with rows that rise by their bytes, in place of those of the same bytes. The one error
// is want of memory.
pub(crate) fn join_index(index: Vec<WordRow>, added: &[Row]) -> Result<Vec<WordRow>, NoMemory>
    requires rising { IsStrictlySortedBy word_order index.items }
    requires added { IsStrictlySortedBy stored_order added.now }
    ensures { IfOk result (λ joined. IsJoined index.items added.now joined.items) }
{
    let mut others = index;
    take_word_rows(&mut others, added);
    let joined = merge_index(others, added)?;
    Ok(joined)
}

// An index with rows that rise by their bytes, where it has none of the same bytes. The one error is
// want of memory.
pub(crate) fn merge_index(index: Vec<WordRow>, added: &[Row]) -> Result<Vec<WordRow>, NoMemory>
    requires rising { IsStrictlySortedBy word_order index.items }
    requires added { IsStrictlySortedBy stored_order added.now }
    requires apart { list_without added.now index.items ≡ index.items }
    ensures { IfOk result (λ merged. IsJoined index.items added.now merged.items) }
{
    let mut merged = index;
    let mut more = word_rows(*merged.allocator(), added)?;
    merged.append(&mut more)?;
    merged.sort_by(|one, other| word_order(one, other))?;
    Ok(merged)
}

// Rows with the words of their keys. The one error is want of memory.
fn word_rows(alloc: Global, rows: &[Row]) -> Result<Vec<WordRow>, NoMemory>
    ensures { IfOk result (λ worded. worded.items ≡ rows.now) }
{
    let mut worded = Vec::with_capacity(alloc, rows.len())?;
    for row in rows {
        worded.push(WordRow::new(row.share()?))?;
    }
    Ok(worded)
}

// The rows in the index that have not the canonical bytes of one of some that rise, once more, with
// room for others. The one error is want of memory.
pub(crate) fn share_others_in_index(
    alloc: Global,
    index: &[WordRow],
    removed: &[Row],
    more: usize,
) -> Result<Vec<WordRow>, NoMemory>
    requires { IsStrictlySortedBy stored_order removed.now }
    ensures { IfOk result (λ others. others.items ≡ list_without removed.now index.now) }
{
    let room = room_for(index.len(), removed.len(), more);
    let mut others = Vec::with_capacity(alloc, room)?;
    for worded in index {
        if !is_among(removed, worded.row()) {
            others.push(worded.share()?)?;
        }
    }
    Ok(others)
}

// The row in the index that has the key of this one: the first of those with its word is found by
// halving.
pub(crate) fn find_keyed<'a>(index: &'a [WordRow], row: &Row) -> Option<&'a Row>
    requires { IsStrictlySortedBy word_order index.now }
    ensures found { IfSome result (λ found.
        Contains index.now found.now × HaveOneKey row.now found.now) }
    ensures none { IfNone result (AllByRecursion (λ s. HaveOneKey row.now s → ⊥) index.now) }
{
    let word = row_word(row);
    let mut place = index.partition_point(|other| other.word() < word);
    while place < index.len() && index[place].word() == word {
        if row
            .stored_element()
            .same_key(index[place].row().stored_element())
        {
            return Some(index[place].row());
        }
        place += 1;
    }
    None
}
