//! The declarations of a document, and the prefixes in scope at a path.
ghost use Rattle.std.specs.Prelude.{◌≡◌, List, None, Some, ℕ, if◌then◌else◌, IfOk, OnOk};
ghost use Rattle.std.specs.BTreeMap.{UpdatesBy, get_by};
ghost use Rattle.std.specs.Cmp.Lexicographic.{slice_cmp};
ghost use Rattle.std.specs.Map.{lookup};
ghost use Rattle.std.specs.Option.{option_copied};
ghost use Rattle.std.specs.Ordering.{nat_cmp};
ghost use Rattle.std.specs.Str.{bytes_eq};
ghost use Rattle.ifmap_prefixes.specs.InScope.{scope_by};
ghost use Rattle.ifmap_prefixes.specs.Rows.{IsLastOf, IsGreaterIndex, IsLatest, at_text, is_key, index_at};

use ifmap_elem::Declared;
use std::alloc::{AllocError as NoMemory, Global};
use std::collections::BTreeMap;
use std::marker::Model;

/// The declarations of prefixes of a document, each found by its prefix and its place. Contracts
/// see them as the list from which they are made.
#[derive(Drop)]
pub struct Declarations<'a> {
    rows: &'a [Declared],
    // For each prefix the paths at which it is declared, with the index of its last declaration
    // there.
    last: BTreeMap<&'a str, BTreeMap<&'a [u32], usize>>,
}

impl<'a> Model for Declarations<'a> {
    ghost use Rattle.std.specs.Prelude.{List};
    ghost use Rattle.ifmap_elem.specs.declared.readings.Declared.{Declared};
    ghost use Rattle.ifmap_prefixes.specs.Rows.{HasLast, index_at};

    ghost Value = { List Declared };

    ghost view = { λ d. d.rows.now };

    ghost invariant = { λ d. HasLast (index_at d.last) d.rows.now };
}

impl<'a> Declarations<'a> {
    /// Those of a list, which is gone over once. The one error is want of memory.
    pub fn of(alloc: Global, rows: &'a [Declared]) -> Result<Declarations<'a>, NoMemory>
        ensures { IfOk result (λ declarations. declarations ≡ rows.now) }
    {
        let mut last = BTreeMap::new(alloc);
        for index in 0..rows.len() {
            put_declaration(alloc, &mut last, &rows[index], index)?;
        }
        Ok(Declarations { rows, last })
    }

    // The index of the last declaration of the prefix at or round the path.
    fn last_index(&self, prefix: &str, path: &[u32]) -> Option<usize>
        ensures { IsLastOf self.now prefix.now path.now result }
    {
        match self.last.get(prefix) {
            Some(paths) => last_index_along(paths, path),
            None => None,
        }
    }

    fn space_at(&self, prefix: &str, path: &[u32]) -> Option<&str>
        ensures { option_copied result ≡ lookup (bytes_eq prefix.now)
            (scope_by self.now path.now).rows }
    {
        match self.last_index(prefix, path) {
            Some(row) => Some(self.rows[row].space.as_str()),
            None => None,
        }
    }
}

// Puts a declaration after all others.
fn put_declaration<'a>(
    alloc: Global,
    last: &mut BTreeMap<&'a str, BTreeMap<&'a [u32], usize>>,
    row: &'a Declared,
    index: usize,
) -> Result<(), NoMemory>
    ensures { OnOk result ((prefix : List ℕ) → (path : List ℕ) →
        index_at last.new prefix path ≡
        (if is_key row.now prefix path then Some index else index_at last.old prefix path)) }
{
    let prefix = row.prefix.as_str();
    let path = row.path.as_slice();
    let mut paths = take_paths(alloc, last, prefix);
    paths.insert(path, index)?;
    last.insert(prefix, paths)?;
    Ok(())
}

// Takes out the paths of a prefix; none where it has no declaration yet.
fn take_paths<'a>(
    alloc: Global,
    last: &mut BTreeMap<&'a str, BTreeMap<&'a [u32], usize>>,
    prefix: &'a str,
) -> BTreeMap<&'a [u32], usize>
    ensures paths { (path : List ℕ) → get_by (at_text path) result
        ≡ index_at last.old prefix.now path }
    ensures rest { UpdatesBy (λ x y. slice_cmp nat_cmp x.now y.now) (at_text prefix.now) last.old
        last.new None }
{
    match last.remove(prefix) {
        Some(paths) => paths,
        None => BTreeMap::new(alloc),
    }
}

// The greatest index at a level of the path.
fn last_index_along(paths: &BTreeMap<&[u32], usize>, path: &[u32]) -> Option<usize>
    ensures { IsLatest (λ p. get_by (at_text p) paths.now) path.now result }
{
    let mut found = None;
    for depth in 0..path.len() + 1 {
        found = later_index(found, paths.get(&path[..depth]).copied());
    }
    found
}

// The greater of two indexes, where there are two.
fn later_index(one: Option<usize>, other: Option<usize>) -> Option<usize>
    ensures { IsGreaterIndex one other result }
{
    match (one, other) {
        (Some(one), Some(other)) => Some(one.max(other)),
        (Some(one), None) => Some(one),
        (None, other) => other,
    }
}

/// The prefixes in scope at a path. Contracts see them as the rows of a scope.
#[derive(Drop)]
pub struct Prefixes<'d, 'p> {
    declarations: &'p Declarations<'d>,
    path: &'p [u32],
}

impl<'d, 'p> Model for Prefixes<'d, 'p> {
    ghost use Rattle.ifmap_prefixes.specs.InScope.{scope_by};
    ghost use Rattle.ifmap_reader.specs.declared.scoping.Scope.{Scope};

    ghost Value = { Scope };

    ghost view = { λ p. scope_by p.declarations.now p.path.now };
}

impl<'d, 'p> Prefixes<'d, 'p> {
    /// Those that the declarations bring into scope at the path of child indexes.
    pub fn at(declarations: &'p Declarations<'d>, path: &'p [u32]) -> Prefixes<'d, 'p>
        ensures { result ≡ scope_by declarations.now path.now }
    {
        Prefixes { declarations, path }
    }

    /// The namespace of the first row with the prefix: that of its innermost declaration. It takes
    /// a search for each level of the path.
    pub fn space_of(&self, prefix: &str) -> Option<&str>
        ensures { option_copied result ≡ lookup (bytes_eq prefix.now) self.now.rows }
    {
        self.declarations.space_at(prefix, self.path)
    }
}
