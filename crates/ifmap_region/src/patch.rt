//! Changes of marks that wait to be made, and the ways back.
ghost use Rattle.std.specs.Prelude.{◌≡◌, ◌≢◌, ℕ, ◌≤◌, Option, Some, true, false, ◌↔◌, IsTrue, IfOk, IfSome, IfNone, length, slice_get, nat_eq};
ghost use Rattle.std.specs.List.{IsDistinct};
ghost use Rattle.std.specs.Map.{keys_of};
ghost use Rattle.ifmap_region.specs.Marks.{mark_of, row_of, row_told};

use crate::rows::{MarkRows, mark_in, put};
use indexmap::IndexMap;
use std::alloc::{AllocError as NoMemory, Global};
use std::marker::Model;

/// A number whose mark comes, goes or changes.
#[derive(Clone, Copy, Debug, PartialEq, Eq)]
pub struct MarkChange {
    /// The number.
    pub number: u64,
    /// Its new mark; `None` where the mark goes.
    pub mark: Option<u32>,
}

/// What a patch says of the mark of a number.
#[derive(Clone, Copy, Debug, PartialEq, Eq)]
pub enum PatchedMark {
    /// Nothing: the number keeps the mark that it has, if any.
    Untouched,
    /// Its mark goes.
    Cleared,
    /// It gets this mark.
    Marked(u32),
}

/// A change of the marks of a region: the new mark of each number whose mark comes or changes, and
/// none for each number whose mark goes.
#[derive(Drop)]
pub struct Patch {
    pub(crate) rows: MarkRows,
}

impl Model for Patch {
    ghost use Rattle.std.specs.Prelude.{ℕ, List, Option};

    ghost Value = { List (ℕ × Option ℕ) };

    ghost view = { λ p. p.rows.entries };
}

impl Patch {
    /// How many numbers lose their mark or get another; each stands once.
    pub fn len(&self) -> usize
        ensures len { result ≡ length self.now }
        ensures once { IsDistinct nat_eq (keys_of self.now) }
    {
        self.rows.len()
    }

    /// Whether no mark changes.
    pub fn is_empty(&self) -> bool
        ensures { IsTrue result ↔ (length self.now ≡ 0) }
    {
        self.rows.len() == 0
    }

    /// The change at a place; `None` past the end.
    pub fn at(&self, i: usize) -> Option<MarkChange>
        ensures at { IfSome result (λ change. slice_get self.now i
            ≡ Some (change.number, change.mark)) }
        ensures row { IfSome result (λ change. row_of self.now change.number ≡ Some change.mark) }
        ensures end { IfNone result (length self.now ≤ i) }
    {
        match self.rows.get_index(i) {
            Some((number, row)) => Some(MarkChange {
                number: *number,
                mark: *row,
            }),
            None => None,
        }
    }

    /// What the patch says of the mark of a number.
    pub fn mark(&self, number: u64) -> PatchedMark
        ensures row { row_told result ≡ row_of self.now number }
        ensures at { IfSome (row_told result) (λ mark. (i : ℕ)
            × (slice_get self.now i ≡ Some (number, mark))) }
    {
        match self.rows.get(&number) {
            Some(row) => patched_mark(*row),
            None => PatchedMark::Untouched,
        }
    }
}

// What a row says of the mark of its number.
fn patched_mark(row: Option<u32>) -> PatchedMark
    ensures { row_told result ≡ Some row }
{
    match row {
        Some(mark) => PatchedMark::Marked(mark),
        None => PatchedMark::Cleared,
    }
}

/// The way back of a change that was made: the marks that were there before.
#[derive(Drop)]
pub struct RegionUndo {
    pub(crate) rows: MarkRows,
}

impl Model for RegionUndo {
    ghost use Rattle.std.specs.Prelude.{ℕ, List, Option};

    ghost Value = { List (ℕ × Option ℕ) };

    ghost view = { λ p. p.rows.entries };
}

// Whether two marks are the same; having none is the same as having none.
fn is_same(a: Option<u32>, b: Option<u32>) -> bool
    ensures yes { result ≡ true → a ≡ b }
    ensures no { result ≡ false → a ≡ b → ⊥ }
{
    match a {
        Some(x) => match b {
            Some(y) => x == y,
            None => false,
        },
        None => match b {
            Some(_) => false,
            None => true,
        },
    }
}

// The rows that differ from the marks below them.
pub(crate) fn changed_rows(
    alloc: Global,
    base: &MarkRows,
    rows: &MarkRows,
) -> Result<MarkRows, NoMemory>
    ensures only { IfOk result (λ changed. (v : ℕ) (r : Option ℕ)
        → row_of changed.entries v ≡ Some r → (row_of rows.now.entries v ≡ Some r)
        × (r ≢ mark_of base.now.entries v)) }
    ensures each { IfOk result (λ changed. (v : ℕ) (r : Option ℕ)
        → row_of rows.now.entries v ≡ Some r → r ≢ mark_of base.now.entries v
        → row_of changed.entries v ≡ Some r) }
{
    let mut changed = IndexMap::new(alloc);
    for i in 0..rows.len() {
        if let Some((number, row)) = rows.get_index(i) {
            if !is_same(*row, mark_in(base, *number)) {
                put(&mut changed, *number, *row)?;
            }
        }
    }
    Ok(changed)
}
