//! What is stored on an item, shared by all who hold it.
ghost use Rattle.std.specs.Prelude.{◌≡◌, IfOk};

use ifmap_meta::Stored;
use std::alloc::{AllocError as NoMemory, Global};
use std::marker::Model;
use std::sync::Arc;

/// A stored element that can stand in several lists at once. Contracts see the stored element. It is a
/// pointer, so that a long list of them moves fast.
#[derive(Drop)]
pub struct Row(Arc<Stored>);

impl Model for Row {
    ghost use Rattle.std.specs.Arc.{arc_value};
    ghost use Rattle.ifmap_meta.specs.contracts.stored.Stored as the_stored;
    ghost use Rattle.ifmap_meta.specs.declared.stored.Stored.{Stored};

    ghost Value = { Stored };

    ghost coded = { the_stored.the_row.coded };

    ghost view = { λ row. arc_value row.0 };
}

impl Row {
    /// The stored element as a row. The one error is want of memory.
    pub fn new(alloc: Global, stored: Stored) -> Result<Row, NoMemory>
        ensures { IfOk result (λ row. row ≡ stored) }
    {
        Ok(Row(Arc::new(alloc, stored)?))
    }

    /// The same row once more, without a copy. The one error is that it is shared too often.
    pub fn share(&self) -> Result<Row, NoMemory>
        ensures { IfOk result (λ row. row ≡ self.now) }
    {
        Ok(Row(Arc::try_clone(&self.0)?))
    }

    /// The stored element. It takes no memory.
    pub fn stored_element(&self) -> &Stored
        ensures { result.now ≡ self.now }
    {
        &self.0
    }
}

/// The same rows once more. The one error is want of memory.
pub fn share_rows(alloc: Global, rows: &[Row]) -> Result<Vec<Row>, NoMemory>
    ensures { IfOk result (λ shared. shared.items ≡ rows.now) }
{
    let mut shared = Vec::with_capacity(alloc, rows.len())?;
    for row in rows {
        shared.push(row.share()?)?;
    }
    Ok(shared)
}
