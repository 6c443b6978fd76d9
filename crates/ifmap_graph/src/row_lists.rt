//! The list of an item, with the one that gave way to it, which is changed in place for the next.
ghost use Rattle.std.specs.Prelude.{◌≡◌, [], Contains, IfNone, IfOk, IfSome};
ghost use Rattle.std.specs.List.{AllByRecursion};
ghost use Rattle.ifmap_meta.specs.Keys.{HaveOneKey};
ghost use Rattle.ifmap_plans.specs.Lists.{next_on};
ghost use Rattle.ifmap_graph.specs.Lagging.{AreBehind};

use crate::shared::SharedRows;
use crate::spares::Spare;
use ifmap_plans::ItemChange;
use ifmap_rows::Rows;
use ifmap_view::Row;
use std::alloc::{AllocError as NoMemory, Global};
use std::marker::Model;

/// A list of rows, with what lags behind it. Contracts see the list.
#[derive(Drop)]
pub struct RowList {
    rows: SharedRows,
    spare: Option<Box<Spare>>,
}

impl Model for RowList {
    ghost use Rattle.std.specs.Coded.{coded_list};
    ghost use Rattle.std.specs.Prelude.{List, IfSome};
    ghost use Rattle.ifmap_meta.specs.contracts.stored.Stored as the_stored;
    ghost use Rattle.ifmap_meta.specs.declared.stored.Stored.{Stored};
    ghost use Rattle.ifmap_graph.specs.Lagging.{AreBehind};

    ghost Value = { List Stored };

    ghost coded = { coded_list the_stored.the_row.coded };

    ghost view = { λ l. l.rows };

    ghost invariant = { λ l. IfSome l.spare (λ spare. AreBehind spare.value l.rows) };
}

// The rows after a change: what lags behind them is caught up and changed, or else those that are left
// are shared.
fn next_rows(
    alloc: Global,
    rows: &SharedRows,
    spare: Option<Box<Spare>>,
    change: &ItemChange,
) -> Result<Rows, NoMemory>
    requires { IfSome spare (λ spare. AreBehind spare.value rows.now) }
    ensures { IfOk result (λ next. next
        ≡ next_on change.now.removed change.now.added rows.now) }
{
    let Some(spare) = spare else {
        return rows.make_next(alloc, change);
    };
    let Some(caught_up) = Box::into_inner(spare).catch_up()? else {
        return rows.make_next(alloc, change);
    };
    let mut next = caught_up;
    next.carry_out(change.removed.as_slice(), change.added.as_slice())?;
    Ok(next)
}

impl RowList {
    /// Empty. It takes no memory.
    pub fn new() -> RowList
        ensures { result ≡ [] }
    {
        RowList {
            rows: SharedRows::no_rows(),
            spare: None,
        }
    }

    /// The rows in their order. It takes no memory.
    pub fn as_slice(&self) -> &[Row]
        ensures { result.now ≡ self.now }
    {
        self.rows.as_slice()
    }

    /// The row that has the key of this one, where there is one. It takes no memory.
    pub fn row_with_key(&self, row: &Row) -> Option<&Row>
        ensures found { IfSome result (λ found.
            Contains self.now found.now × HaveOneKey row.now found.now) }
        ensures none { IfNone result (AllByRecursion (λ s. HaveOneKey row.now s → ⊥) self.now) }
    {
        self.rows.row_with_key(row)
    }

    /// The list after a change, behind which this one is to lag: what lagged behind this one is used up
    /// for it. The one error is want of memory.
    pub fn make_next(&mut self, alloc: Global, change: &ItemChange) -> Result<RowList, NoMemory>
        ensures next { IfOk result (λ list. list
            ≡ next_on change.now.removed change.now.added self.old) }
        ensures same { self.new ≡ self.old }
    {
        let spare = Spare::of(alloc, &self.rows, change)?;
        let rows = next_rows(alloc, &self.rows, self.spare.take(), change)?;
        let rows = SharedRows::new(alloc, rows)?;
        Ok(RowList { rows, spare })
    }
}
