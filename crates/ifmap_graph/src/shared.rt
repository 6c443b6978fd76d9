//! Rows of one item that several may hold at once.
ghost use Rattle.std.specs.Prelude.{◌≡◌, ◌≤◌, [], Contains, IfNone, IfOk, IfSome, length};
ghost use Rattle.std.specs.List.{AllByRecursion};
ghost use Rattle.ifmap_meta.specs.Keys.{HaveOneKey};
ghost use Rattle.ifmap_plans.specs.Lists.{next_on};

use ifmap_plans::ItemChange;
use ifmap_rows::Rows;
use ifmap_view::Row;
use std::alloc::{AllocError as NoMemory, Global};
use std::marker::Model;
use std::sync::Arc;

/// A handle to rows. Contracts see the stored elements in their order. Where there are none it may
/// be a handle to nothing, which takes no memory.
#[derive(Drop)]
pub struct SharedRows(Option<Arc<Rows>>);

impl Model for SharedRows {
    ghost use Rattle.std.specs.Arc.{arc_value};
    ghost use Rattle.std.specs.Coded.{coded_list};
    ghost use Rattle.std.specs.Prelude.{List, [], option_map, unwrap_or};
    ghost use Rattle.ifmap_meta.specs.contracts.stored.Stored as the_stored;
    ghost use Rattle.ifmap_meta.specs.declared.stored.Stored.{Stored};

    ghost Value = { List Stored };

    ghost coded = { coded_list the_stored.the_row.coded };

    ghost view = { λ s. unwrap_or (option_map arc_value s.0) [] };
}

impl SharedRows {
    /// No rows. It takes no memory.
    pub fn no_rows() -> SharedRows
        ensures { result ≡ [] }
    {
        SharedRows(None)
    }

    /// The first handle to rows. The one error is want of memory.
    pub fn new(alloc: Global, rows: Rows) -> Result<SharedRows, NoMemory>
        ensures { IfOk result (λ shared. shared ≡ rows) }
    {
        Ok(SharedRows(Some(Arc::new(alloc, rows)?)))
    }

    /// The rows in their order. It takes no memory.
    pub fn as_slice(&self) -> &[Row]
        ensures { result.now ≡ self.now }
    {
        match &self.0 {
            Some(rows) => rows.as_slice(),
            None => &[],
        }
    }

    /// How many rows there is room for. It takes no memory.
    pub fn room(&self) -> usize
        ensures { length self.now ≤ result }
    {
        match &self.0 {
            Some(rows) => rows.room(),
            None => 0,
        }
    }

    /// The row that has the key of this one, where there is one. It takes no memory.
    pub fn row_with_key(&self, row: &Row) -> Option<&Row>
        ensures found { IfSome result (λ found.
            Contains self.now found.now × HaveOneKey row.now found.now) }
        ensures none { IfNone result (AllByRecursion (λ s. HaveOneKey row.now s → ⊥) self.now) }
    {
        match &self.0 {
            Some(rows) => rows.row_with_key(row),
            None => None,
        }
    }

    /// One handle more. It takes no memory; the one error is that there are too many.
    pub fn share(&self) -> Result<SharedRows, NoMemory>
        ensures { IfOk result (λ shared. shared ≡ self.now) }
    {
        match &self.0 {
            Some(rows) => Ok(SharedRows(Some(Arc::try_clone(rows)?))),
            None => Ok(SharedRows(None)),
        }
    }

    /// The rows after a change, which can be changed further: no element is copied. The one error is want
    /// of memory.
    pub fn make_next(&self, alloc: Global, change: &ItemChange) -> Result<Rows, NoMemory>
        ensures { IfOk result (λ rows. rows
            ≡ next_on change.now.removed change.now.added self.now) }
    {
        match &self.0 {
            Some(rows) => rows.make_next(alloc, change.removed.as_slice(), change.added.as_slice()),
            None => Rows::new(alloc).make_next(
                alloc,
                change.removed.as_slice(),
                change.added.as_slice(),
            ),
        }
    }

    /// The rows themselves, where this was the one handle to them. It takes no memory.
    pub fn into_rows(self) -> Option<Rows>
        ensures { IfSome result (λ rows. rows ≡ self) }
    {
        match self.0 {
            Some(rows) => Arc::try_unwrap(rows).ok(),
            None => None,
        }
    }
}
