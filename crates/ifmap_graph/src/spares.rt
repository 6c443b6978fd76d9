//! The list that gave way to another.
ghost use Rattle.std.specs.Prelude.{◌≡◌, IfOk, IfSome};
ghost use Rattle.ifmap_plans.specs.Lists.{next_on};
ghost use Rattle.ifmap_graph.specs.Lagging.{AreBehind};

use crate::shared::SharedRows;
use ifmap_elem::Many;
use ifmap_plans::ItemChange;
use ifmap_rows::Rows;
use ifmap_view::{Row, share_rows};
use std::alloc::{AllocError as NoMemory, Global};

/// A list that lags behind another by one change.
#[derive(Drop)]
pub struct Spare {
    /// The list before the change.
    pub rows: SharedRows,
    /// What the change takes.
    pub removed: Many<Row>,
    /// What it puts.
    pub added: Many<Row>,
}

// So many rows make it worth to keep a list for each row that changes: to catch up takes a look-up for
// each of these, to share the list a count for each row of it.
const ROWS_FOR_ONE: usize = 16;

// A list that lags by more rows is not kept, however long it is: to catch up by so many takes as long as
// to share it, since each moves the pointers that follow it.
const MOST_CHANGED: usize = 256;

// A list with room for more than so many rows for each that it has is not kept, so that the room is
// given back.
const MOST_ROOM_FOR_ONE: usize = 4;

// Whether it is worth to keep a list that gives way for a change.
fn is_worth(rows: &SharedRows, change: &ItemChange) -> bool {
    let length = rows.as_slice().len();
    let changed = change.removed.as_slice().len() + change.added.as_slice().len();
    changed <= MOST_CHANGED
        && changed <= length / ROWS_FOR_ONE
        && rows.room() / MOST_ROOM_FOR_ONE <= length
}

impl Spare {
    /// These rows as what lags behind those after a change. The one error is want of memory.
    pub fn new(alloc: Global, rows: &SharedRows, change: &ItemChange) -> Result<Spare, NoMemory>
        ensures { IfOk result (λ spare. AreBehind spare
            (next_on change.now.removed change.now.added rows.now)) }
    {
        let rows = rows.share()?;
        let removed = Many(share_rows(alloc, change.removed.as_slice())?);
        let added = Many(share_rows(alloc, change.added.as_slice())?);
        Ok(Spare {
            rows,
            removed,
            added,
        })
    }

    /// The same, in a box, where it is worth it.
    pub fn of(
        alloc: Global,
        rows: &SharedRows,
        change: &ItemChange,
    ) -> Result<Option<Box<Spare>>, NoMemory>
        ensures { IfOk result (λ found. IfSome found (λ spare. AreBehind spare.value
            (next_on change.now.removed change.now.added rows.now))) }
    {
        if !is_worth(rows, change) {
            return Ok(None);
        }
        let spare = Spare::new(alloc, rows, change)?;
        Ok(Some(Box::new(alloc, spare)?))
    }

    /// The list that it lagged behind, where nobody else holds it. The one error is want of memory.
    pub fn catch_up(self) -> Result<Option<Rows>, NoMemory>
        ensures { IfOk result (λ found. IfSome found (λ rows. AreBehind self rows)) }
    {
        let Some(mut rows) = self.rows.into_rows() else {
            return Ok(None);
        };
        rows.carry_out(self.removed.as_slice(), self.added.as_slice())?;
        Ok(Some(rows))
    }
}
