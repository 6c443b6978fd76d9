//! The rows of a scope as declarations.
ghost use Rattle.std.specs.Prelude.{◌≡◌, [], IfOk, map};
ghost use Rattle.ifmap_prefixes.specs.InScope.{root_row, scope_by};

use ifmap_elem::{Copied, Declared, Many, Text};
use ifmap_reader::Scope;
use std::alloc::{AllocError as NoMemory, Global};

/// Declarations at the root of a document that bring these rows into scope there. The one error is
/// want of memory.
pub fn declarations_of(alloc: Global, scope: &Scope) -> Result<Many<Declared>, NoMemory>
    ensures { IfOk result (λ rows. scope_by rows [] ≡ scope.now) }
{
    let mut declared = declare_rows(alloc, scope.rows.as_slice())?;
    declared.0.reverse();
    Ok(declared)
}

fn declare_rows(alloc: Global, rows: &[(Text, Text)]) -> Result<Many<Declared>, NoMemory>
    ensures { IfOk result (λ declared. declared ≡ map root_row rows.now) }
{
    let mut declared = Vec::with_capacity(alloc, rows.len())?;
    for row in rows {
        declared.push(declare(alloc, row)?)?;
    }
    Ok(Many(declared))
}

// A row as a declaration at the root.
fn declare(alloc: Global, row: &(Text, Text)) -> Result<Declared, NoMemory>
    ensures { IfOk result (λ declared. declared ≡ root_row row.now) }
{
    Ok(Declared {
        path: Many(Vec::new(alloc)),
        prefix: row.0.copy(alloc)?,
        space: row.1.copy(alloc)?,
    })
}
