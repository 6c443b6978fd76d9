//! Rows of marks.
ghost use Rattle.std.specs.Prelude.{◌≡◌, ℕ, ◌<◌, ◌≤◌, true, false, is_some, OnOk, OnErr, Some};
ghost use Rattle.ifmap_region.specs.Marks.{row_of, mark_of, mark_over, HasPut};

use indexmap::IndexMap;
use std::alloc::AllocError as NoMemory;

// Marks by their numbers; a row may stand without a mark.
pub(crate) type MarkRows = IndexMap<u64, Option<u32>>;

// The marks of `rows` where they have a row, else those of `base`.
pub(crate) fn mark(base: &MarkRows, rows: &MarkRows, number: u64) -> Option<u32>
    ensures { result ≡ mark_over rows.now.entries (mark_of base.now.entries) number }
{
    match rows.get(&number) {
        Some(row) => *row,
        None => match base.get(&number) {
            Some(row) => *row,
            None => None,
        },
    }
}

// Whether the number has a row.
pub(crate) fn has_row(rows: &MarkRows, number: u64) -> bool
    ensures { result ≡ is_some (row_of rows.now.entries number) }
{
    rows.contains_key(&number)
}

// Puts a row in, in place of the one that is there.
pub(crate) fn put(rows: &mut MarkRows, number: u64, mark: Option<u32>) -> Result<(), NoMemory>
    ensures put { OnOk result (HasPut rows.old.entries rows.new.entries number mark) }
    ensures err { OnErr result (rows.new.entries ≡ rows.old.entries) }
{
    rows.insert(number, mark)?;
    Ok(())
}

// Whether there is a mark, and it is at most the level.
pub(crate) fn is_within(mark: Option<u32>, level: u32) -> bool
    ensures yes { result ≡ true → (k : ℕ) × (mark ≡ Some k) × (k ≤ level) }
    ensures no { result ≡ false → (k : ℕ) → mark ≡ Some k → level < k }
{
    match mark {
        Some(known) => known <= level,
        None => false,
    }
}

// Whether the mark is this one.
pub(crate) fn is_mark(mark: Option<u32>, level: u32) -> bool
    ensures yes { result ≡ true → mark ≡ Some level }
    ensures no { result ≡ false → mark ≡ Some level → ⊥ }
{
    match mark {
        Some(known) => known == level,
        None => false,
    }
}

// The mark of the number in these rows alone.
pub(crate) fn mark_in(rows: &MarkRows, number: u64) -> Option<u32>
    ensures { result ≡ mark_of rows.now.entries number }
{
    match rows.get(&number) {
        Some(row) => *row,
        None => None,
    }
}
