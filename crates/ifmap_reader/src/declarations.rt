//! The declarations in an element.
ghost use Rattle.std.specs.Prelude.{◌≡◌, [], ◌++◌, map, IfOk, OnOk};
ghost use Rattle.std.specs.Bool.{OnTrue};
ghost use Rattle.ifmap_elem.specs.Document.{declared_here, from_above};
ghost use Rattle.ifmap_reader.specs.ReversedPaths.{lengthen, reverse_path};

use crate::bindings::Bindings;
use ifmap_elem::{Declared, Many};
use std::alloc::{AllocError as NoMemory, Global};
use std::marker::Model;

// Declarations, which contracts see as a list with their paths from one element on. At each element
// that ends, an index comes in front of all these paths. So the paths lie turned, and what comes in
// front of all of them is kept once, until they come together with others.
#[derive(Drop)]
pub(crate) struct ReversedDeclarations {
    // Each path begins with its last index.
    rows: Vec<Declared>,
    // What each of these paths goes on with.
    above: Vec<u32>,
}

impl Model for ReversedDeclarations {
    ghost use Rattle.std.specs.Prelude.{List, map};
    ghost use Rattle.ifmap_elem.specs.declared.readings.Declared.{Declared};
    ghost use Rattle.ifmap_reader.specs.ReversedPaths.{reverse_path};

    ghost Value = { List Declared };

    ghost view = { λ d. map (reverse_path d.above.items) d.rows.items };
}

impl ReversedDeclarations {
    pub(crate) fn new(alloc: Global) -> ReversedDeclarations
        ensures { result ≡ [] }
    {
        ReversedDeclarations {
            rows: Vec::new(alloc),
            above: Vec::new(alloc),
        }
    }

    pub(crate) fn is_empty(&self) -> bool
        ensures { OnTrue result (self.now ≡ []) }
    {
        self.rows.is_empty()
    }

    // As the parent sees them.
    pub(crate) fn raise(self, index: usize) -> Result<ReversedDeclarations, NoMemory>
        ensures { IfOk result (λ made. made ≡ map (from_above index) self) }
    {
        let ReversedDeclarations { rows, mut above } = self;
        let child = path_index(index)?;
        above.push(child)?;
        Ok(ReversedDeclarations { rows, above })
    }

    // With others after them.
    pub(crate) fn with_more(
        self,
        alloc: Global,
        more: ReversedDeclarations,
    ) -> Result<ReversedDeclarations, NoMemory>
        ensures { IfOk result (λ made. made ≡ self ++ more) }
    {
        if self.is_empty() {
            return Ok(more);
        }
        let rows = self.into_rows(alloc)?;
        let made = join_rows(alloc, rows, more)?;
        Ok(made)
    }

    // With those of the element's own tag before them. Most tags declare nothing.
    #[inline(always)]
    pub(crate) fn with_own(
        self,
        alloc: Global,
        own: Bindings,
    ) -> Result<ReversedDeclarations, NoMemory>
        ensures { IfOk result (λ made. made ≡ declared_here own ++ self) }
    {
        if own.is_empty() {
            return Ok(self);
        }
        let Many(rows) = own.into_declared();
        let made = join_rows(alloc, rows, self)?;
        Ok(made)
    }

    // The rows with whole paths, which lie turned.
    fn into_rows(self, alloc: Global) -> Result<Vec<Declared>, NoMemory>
        ensures { IfOk result (λ rows. map (reverse_path []) rows.items ≡ self) }
    {
        let ReversedDeclarations { rows, above } = self;
        if above.is_empty() {
            return Ok(rows);
        }
        let mut made = Vec::with_capacity(alloc, rows.len())?;
        push_rows(&mut made, rows, &above)?;
        Ok(made)
    }

    // The declarations, with their paths in order.
    pub(crate) fn into_declared(self, alloc: Global) -> Result<Many<Declared>, NoMemory>
        ensures { IfOk result (λ declared. declared ≡ self) }
    {
        let ReversedDeclarations { rows, above } = self;
        let mut made = Vec::with_capacity(alloc, rows.len())?;
        for row in rows {
            made.push(reverse_path(row, &above)?)?;
        }
        Ok(Many(made))
    }
}

// How a path tells of the child at this index. One beyond 32 bits is more than memory holds.
fn path_index(index: usize) -> Result<u32, NoMemory>
    ensures { IfOk result (λ child. child ≡ index) }
{
    let Ok(child) = u32::try_from(index) else {
        return Err(NoMemory);
    };
    Ok(child)
}

// Rows with whole paths, and more declarations after them.
fn join_rows(
    alloc: Global,
    rows: Vec<Declared>,
    more: ReversedDeclarations,
) -> Result<ReversedDeclarations, NoMemory>
    ensures { IfOk result (λ made. made ≡ map (reverse_path []) rows.items ++ more) }
{
    let ReversedDeclarations {
        rows: others,
        above,
    } = more;
    let mut rows = rows;
    push_rows(&mut rows, others, &above)?;
    let above = Vec::new(alloc);
    Ok(ReversedDeclarations { rows, above })
}

// Puts more rows after the others, each with these indexes at the end of its path.
fn push_rows(rows: &mut Vec<Declared>, more: Vec<Declared>, above: &[u32]) -> Result<(), NoMemory>
    ensures { OnOk result (rows.new.items ≡ rows.old.items ++ map (lengthen above.now) more.items) }
{
    for row in more {
        rows.push(lengthen(row, above)?)?;
    }
    Ok(())
}

// A row with these indexes at the end of its path.
fn lengthen(row: Declared, above: &[u32]) -> Result<Declared, NoMemory>
    ensures { IfOk result (λ made. made ≡ lengthen above.now row) }
{
    let Declared {
        path,
        prefix,
        space,
    } = row;
    let Many(mut indices) = path;
    indices.extend_from_slice(above)?;
    let path = Many(indices);
    Ok(Declared {
        path,
        prefix,
        space,
    })
}

// A row with its whole path, the last index last.
fn reverse_path(row: Declared, above: &[u32]) -> Result<Declared, NoMemory>
    ensures { IfOk result (λ made. made ≡ reverse_path above.now row) }
{
    let Declared {
        path,
        prefix,
        space,
    } = row;
    let Many(mut indices) = path;
    indices.extend_from_slice(above)?;
    indices.reverse();
    let path = Many(indices);
    Ok(Declared {
        path,
        prefix,
        space,
    })
}
