//! The numbers that a bounded walk from a start reaches, each with its depth.
ghost use Rattle.std.specs.Prelude.{◌≡◌, ℕ, Option, Some, None, List, IfOk, IsOk, OnOk, OnErr, IsSome, is_some};
ghost use Rattle.ifmap_region.specs.Bounds.{IsWithin};
ghost use Rattle.ifmap_region.specs.Links.{links_of};
ghost use Rattle.ifmap_region.specs.Marks.{mark_of, row_of, mark_over, AllMarked};
ghost use Rattle.ifmap_region.specs.Walks.{AreDepths, IsReached};
ghost use Rattle.ifmap_region.specs.Ways.{HasRoom, HasSpare, OnlyRoom, Makes, Sweeps, IsWayBack, taken_from};

use crate::bases::Basis;
use crate::levels::Seed;
use crate::link_source::LinkSource;
use crate::patch::{Patch, RegionUndo};
use crate::rows::mark_in;
use crate::spread::spread;
use crate::ways::{exchange, make_room, sweep};
use ifmap_steps::Steps;
use indexmap::IndexMap;
use std::alloc::{AllocError as NoMemory, Global};
use std::sync::ledger::Ledger;

/// Which numbers walks from a start reach, and by how many links at least.
///
/// A walk begins at `start`, goes on by matching links from numbers that are not terminal, and has
/// at most `max_depth` links.
#[derive(Drop)]
pub struct Region {
    /// Where each walk begins.
    pub start: u64,
    /// The most links that a walk has.
    pub max_depth: u32,
    /// The depth of each number that is reached. A number with `None` has no mark: its row is room
    /// for a patch.
    pub marks: IndexMap<u64, Option<u32>>,
}

/// The region of a start: exactly the numbers that walks reach have a mark, and it is their depth.
///
/// It takes at most as many steps as the reached numbers have links together. The only error is
/// want of memory.
pub fn build<G: LinkSource, L: Ledger>(
    alloc: Global,
    start: u64,
    max_depth: u32,
    graph: &G,
    steps: &mut Steps<L>,
) -> Result<Region, NoMemory>
    ensures start { IfOk result (λ region. region.start ≡ start) }
    ensures max_depth { IfOk result (λ region. region.max_depth ≡ max_depth) }
    ensures depths { let seen = G.seen graph.now in
        IfOk result (λ region. AreDepths (links_of seen) seen.terminal start max_depth
        (mark_of region.marks.entries)) }
    ensures rows { IfOk result (λ region. AllMarked region.marks.entries) }

    // Also at want of memory.
    ensures steps { let seen = G.seen graph.now in
        IsWithin seen.count (IsReached (links_of seen) seen.terminal start max_depth) 1 steps.old
        steps.new }
{
    let unmarked = IndexMap::new(alloc);
    let mut marks = IndexMap::new(alloc);
    let mut seeds = Vec::new(alloc);
    seeds.push(Seed {
        level: 0,
        number: start,
    })?;
    let basis = Basis {
        base: &unmarked,
        top: max_depth,
        graph,
    };
    spread(alloc, &basis, &mut marks, seeds, steps)?;
    Ok(Region {
        start,
        max_depth,
        marks,
    })
}

impl Region {
    /// The depth of a number, where a walk reaches it.
    pub fn mark(&self, number: u64) -> Option<u32>
        ensures { result ≡ mark_of self.now.marks.entries number }
    {
        mark_in(&self.marks, number)
    }

    /// Makes room for a patch: afterwards each of its numbers has a row. The marks stay as they
    /// are.
    ///
    /// Want of memory comes only where fewer rows fit than are missing. After it the rows are as
    /// before.
    pub fn reserve(&mut self, patch: &Patch) -> Result<(), NoMemory>
        ensures start { self.new.start ≡ self.old.start }
        ensures max_depth { self.new.max_depth ≡ self.old.max_depth }
        ensures marks { (v : ℕ)
            → mark_of self.new.marks.entries v ≡ mark_of self.old.marks.entries v }
        ensures room { OnOk result (HasRoom patch.now self.new.marks.entries) }
        ensures only { OnOk result (OnlyRoom patch.now self.old.marks.entries
            self.new.marks.entries) }
        ensures err { OnErr result (self.new.marks.entries ≡ self.old.marks.entries) }
        ensures succeeds { HasSpare patch.now self.old.marks → IsOk result }
    {
        make_room(&mut self.marks, &patch.rows)
    }

    /// Makes the marks of a patch, and leaves no row of its numbers without a mark. It takes no
    /// memory, and needs the room of `reserve`.
    pub fn commit(&mut self, patch: Patch)
        requires { HasRoom patch self.old.marks.entries }
        ensures start { self.new.start ≡ self.old.start }
        ensures max_depth { self.new.max_depth ≡ self.old.max_depth }
        ensures marks { (v : ℕ)
            → mark_of self.new.marks.entries v
            ≡ mark_over patch (mark_of self.old.marks.entries) v }
        ensures swept { (v : ℕ) → IsSome (row_of patch v)
            → row_of self.new.marks.entries v ≡ Some None → ⊥ }
        ensures others { (v : ℕ) → row_of patch v ≡ None
            → is_some (row_of self.new.marks.entries v)
            ≡ is_some (row_of self.old.marks.entries v) }
    {
        let undo = self.commit_kept(patch);
        self.settle(undo);
    }

    /// Makes the marks of a patch and gives the way back. All rows stay. It takes no memory, and
    /// needs the room of `reserve`.
    pub fn commit_kept(&mut self, patch: Patch) -> RegionUndo
        requires { HasRoom patch self.old.marks.entries }
        ensures start { self.new.start ≡ self.old.start }
        ensures max_depth { self.new.max_depth ≡ self.old.max_depth }
        ensures makes { Makes patch self.old.marks.entries self.new.marks.entries }
        ensures undo { result ≡ taken_from (mark_of self.old.marks.entries) patch }
        ensures room { HasRoom result self.new.marks.entries }
    {
        let mut rows = patch.rows;
        exchange(&mut self.marks, &mut rows);
        RegionUndo { rows }
    }

    /// Takes a change back and gives its patch back. All rows stay. It takes no memory, and needs
    /// the rows of the patch's numbers.
    pub fn undo(&mut self, undo: RegionUndo) -> Patch
        requires { HasRoom undo self.old.marks.entries }
        ensures start { self.new.start ≡ self.old.start }
        ensures max_depth { self.new.max_depth ≡ self.old.max_depth }
        ensures makes { Makes undo self.old.marks.entries self.new.marks.entries }
        ensures taken { result ≡ taken_from (mark_of self.old.marks.entries) undo }
        ensures room { HasRoom result self.new.marks.entries }

        // Where the marks are those that `commit_kept` left, they are again those before it,
        // whatever rows later patches have by then.
        ensures back { (patch : List (ℕ × Option ℕ)) (before : ℕ → Option ℕ)
            → IsWayBack undo patch before (mark_of self.old.marks.entries)
            → (v : ℕ) → mark_of self.new.marks.entries v ≡ before v }
        ensures patch { (patch : List (ℕ × Option ℕ)) (before : ℕ → Option ℕ)
            → IsWayBack undo patch before (mark_of self.old.marks.entries)
            → (v : ℕ) → row_of result v ≡ row_of patch v }
    {
        let mut rows = undo.rows;
        exchange(&mut self.marks, &mut rows);
        Patch { rows }
    }

    /// Ends a change that was kept: the marks stay, and the rows of its numbers that have no mark
    /// go. It takes no memory.
    pub fn settle(&mut self, undo: RegionUndo)
        ensures start { self.new.start ≡ self.old.start }
        ensures max_depth { self.new.max_depth ≡ self.old.max_depth }
        ensures marks { (v : ℕ)
            → mark_of self.new.marks.entries v ≡ mark_of self.old.marks.entries v }
        ensures rows { Sweeps undo self.old.marks.entries self.new.marks.entries }
    {
        sweep(&mut self.marks, &undo.rows);
    }

    /// Gives up a patch for which room was made, and which is not made: the marks stay, and the
    /// rows of its numbers that have no mark go. It takes no memory.
    pub fn forget(&mut self, patch: Patch)
        ensures start { self.new.start ≡ self.old.start }
        ensures max_depth { self.new.max_depth ≡ self.old.max_depth }
        ensures marks { (v : ℕ)
            → mark_of self.new.marks.entries v ≡ mark_of self.old.marks.entries v }
        ensures rows { Sweeps patch self.old.marks.entries self.new.marks.entries }
    {
        sweep(&mut self.marks, &patch.rows);
    }
}
