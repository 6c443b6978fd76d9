//! Which prefixes are in scope at an element that was read.
ghost use Rattle.std.specs.Prelude.{◌≡◌, map, IfOk};
ghost use Rattle.std.specs.BTreeMap.{get};
ghost use Rattle.std.specs.Cmp.Lexicographic.{slice_cmp};
ghost use Rattle.std.specs.Ordering.{nat_cmp};
ghost use Rattle.ifmap_elem.specs.Scopes.{AllDiffer};
ghost use Rattle.ifmap_elem.specs.InScope.{is_listed};
ghost use Rattle.ifmap_reader.specs.ListedScopes.{ListsDeclared, ListsScope, TellsDeclared, is_listed_at};

use crate::bindings::XML;
use ifmap_elem::laws::declarations_tell_the_scopes;
use ifmap_elem::{Copied, Declared, Many, Reading, Text};
use std::alloc::{AllocError as NoMemory, Global};
use std::collections::BTreeMap;

/// The prefixes in scope at an element, each once and with its namespace. The default and `xml` are
/// not among them.
#[derive(Debug, Drop)]
pub struct Scope {
    pub rows: Many<(Text, Text)>,
}

impl Copied for Scope {
    fn copy(&self, alloc: Global) -> Result<Self, NoMemory> {
        let rows = self.rows.copy(alloc)?;
        Ok(Scope { rows })
    }
}

/// The prefixes in scope at the element with this path of child indexes. A path that names no
/// element is answered as the part of it that is there.
pub fn scope_at(alloc: Global, reading: &Reading, path: &[u32]) -> Result<Scope, NoMemory>
    ensures once { IfOk result (λ s. AllDiffer (map (λ row. row.0) s.rows)) }
    ensures declared { IfOk result (λ s. ListsDeclared s.rows reading.now path.now) }
    ensures resolved { IfOk result (λ s. ListsScope s.rows reading.now path.now) }
{
    declarations_tell_the_scopes();
    let spaces = spaces_at(alloc, reading.declared.as_slice(), path)?;
    let rows = rows_of(alloc, spaces)?;
    Ok(Scope { rows })
}

// What each listed prefix is bound to: a declaration further in takes the place of one round it.
fn spaces_at(
    alloc: Global,
    declared: &[Declared],
    path: &[u32],
) -> Result<BTreeMap<Text, Text>, NoMemory>
    ensures { IfOk result (λ m. TellsDeclared (get (slice_cmp nat_cmp) m) path.now declared.now) }
{
    let mut spaces = BTreeMap::new(alloc);
    for declaration in declared {
        if is_listed_at(declaration, path) {
            spaces.insert(
                declaration.prefix.copy(alloc)?,
                declaration.space.copy(alloc)?,
            )?;
        }
    }
    Ok(spaces)
}

// Whether a declaration stands at or round the element with this path, and is of a listed prefix.
fn is_listed_at(declaration: &Declared, path: &[u32]) -> bool
    ensures { result ≡ is_listed_at path.now declaration.now }
{
    path.starts_with(declaration.path.as_slice()) && is_listed(&declaration.prefix)
}

fn is_listed(prefix: &Text) -> bool
    ensures { result ≡ is_listed prefix.now }
{
    !(prefix.is_empty() || prefix.as_bytes() == XML.as_bytes())
}

fn rows_of(alloc: Global, spaces: BTreeMap<Text, Text>) -> Result<Many<(Text, Text)>, NoMemory>
    ensures all { IfOk result (λ rows. rows ≡ spaces.entries) }
    ensures once { IfOk result (λ rows. AllDiffer (map (λ row. row.0) rows)) }
{
    let mut rows = Vec::with_capacity(alloc, spaces.len())?;
    for row in spaces {
        rows.push(row)?;
    }
    Ok(Many(rows))
}
