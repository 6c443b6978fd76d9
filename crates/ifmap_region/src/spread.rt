//! Marks fall along links, level by level, until they are the depths.
ghost use Rattle.std.specs.Prelude.{◌≡◌, ℕ, ◌+◌, ◌<◌, ◌≤◌, ◌^◌, ◌⊎◌, ◌∷◌, [], All, Option, Some, true, false, List, Contains, OnOk, OnErr, sum_by};
ghost use Rattle.ifmap_region.specs.Bounds.{IsWithin};
ghost use Rattle.ifmap_region.specs.Layers.{layer_of, links, marks, HasMarkWithin, HasDepths, MayFall, Falls, IsShortened, Charges};
ghost use Rattle.ifmap_region.specs.Marks.{mark_of, mark_over, AddsMarks};
ghost use Rattle.ifmap_region.specs.Spreading.{IsLowered, Enqueues};

use crate::bases::Basis;
use crate::levels::{Seed, Seeds, least_level};
use crate::link_source::LinkSource;
use crate::rows::{MarkRows, is_within, mark, put};
use ifmap_steps::Steps;
use std::alloc::{AllocError as NoMemory, Global};
use std::mem;
use std::sync::ledger::Ledger;

// Gives a number the mark of a level and puts it into the queue, unless it has a mark that is at
// most the level.
fn enqueue(
    base: &MarkRows,
    rows: &mut MarkRows,
    level: u32,
    number: u64,
    queue: &mut Vec<u64>,
) -> Result<(), NoMemory>
    ensures rows { AddsMarks rows.old.entries rows.new.entries }
    ensures ok { OnOk result (Enqueues level number (mark_of base.now.entries) rows.old.entries
        rows.new.entries queue.old.items queue.new.items) }
    ensures part { (rows.new.entries ≡ rows.old.entries)
        ⊎ IsLowered level number (mark_over rows.old.entries (mark_of base.now.entries))
        (mark_over rows.new.entries (mark_of base.now.entries)) }
    ensures queue { OnErr result (queue.new.items ≡ queue.old.items) }
{
    if is_within(mark(base, rows, number), level) {
        return Ok(());
    }
    put(rows, number, Some(level))?;
    queue.push(number)?;
    Ok(())
}

// Puts the neighbours of a number into the queue that have no mark, or one above the level that
// follows; that is their mark then.
fn offer_neighbours<G: LinkSource, L: Ledger>(
    basis: &Basis<'_, G>,
    rows: &mut MarkRows,
    number: u64,
    next: u32,
    queue: &mut Vec<u64>,
    steps: &mut Steps<L>,
) -> Result<(), NoMemory>
    ensures rows { AddsMarks rows.old.entries rows.new.entries }
    ensures offered { let layer = layer_of G.seen basis.now rows.new.entries in
        OnOk result ((w : ℕ) → links layer number w → HasMarkWithin layer w next) }
    ensures falls { let layer = layer_of G.seen basis.now in
        OnOk result ((start level : ℕ) (rest : List ℕ) (seeds : List (ℕ × ℕ))
        → next ≡ level + 1 → level < basis.now.top
        → (G.seen basis.now.graph.now).terminal number ≡ false
        → Falls (layer rows.old.entries) start seeds level (number ∷ rest) queue.old.items
        → Falls (layer rows.new.entries) start seeds level (number ∷ rest) queue.new.items) }
    ensures charged { let layer = layer_of G.seen basis.now in
        (start level before owed : ℕ) (rest : List ℕ) (seeds : List (ℕ × ℕ)) (first : ℕ → Option ℕ)
        → next ≡ level + 1 → level < basis.now.top
        → (G.seen basis.now.graph.now).terminal number ≡ false
        → Falls (layer rows.old.entries) start seeds level (number ∷ rest) queue.old.items
        → Charges (layer rows.old.entries) start first next before owed queue.old.items
        → Charges (layer rows.new.entries) start first next before owed queue.new.items }
    ensures steps { steps.new ≤ steps.old + (G.seen basis.now.graph.now).count number }
{
    for i in 0..basis.graph.count(number) {
        if let Some(neighbour) = basis.graph.at(number, i, steps) {
            enqueue(basis.base, rows, next, neighbour, queue)?;
        }
    }
    Ok(())
}

// Scans a number of the queue, which has the mark of the level: its neighbours come into the queue
// of the level that follows.
fn visit<G: LinkSource, L: Ledger>(
    basis: &Basis<'_, G>,
    rows: &mut MarkRows,
    level: u32,
    number: u64,
    queue: &mut Vec<u64>,
    steps: &mut Steps<L>,
) -> Result<(), NoMemory>
    ensures rows { AddsMarks rows.old.entries rows.new.entries }
    ensures still { 2 ^ 32 ≤ level + 1 → queue.new.items ≡ queue.old.items }
    ensures falls { let layer = layer_of G.seen basis.now in
        OnOk result ((start : ℕ) (rest : List ℕ) (seeds : List (ℕ × ℕ))
        → Falls (layer rows.old.entries) start seeds level (number ∷ rest) queue.old.items
        → Falls (layer rows.new.entries) start seeds level rest queue.new.items) }
    ensures charged { let layer = layer_of G.seen basis.now in
        let link_count = λ (numbers : List ℕ). sum_by (G.seen basis.now.graph.now).count numbers in
        (start before : ℕ) (rest : List ℕ) (seeds : List (ℕ × ℕ)) (first : ℕ → Option ℕ)
        → Falls (layer rows.old.entries) start seeds level (number ∷ rest) queue.old.items
        → Charges (layer rows.old.entries) start first (level + 1) before
        (steps.old + link_count (number ∷ rest)) queue.old.items
        → Charges (layer rows.new.entries) start first (level + 1) before
        (steps.new + link_count rest) queue.new.items }
{
    if level < basis.top && !basis.graph.is_terminal(number) {
        offer_neighbours(basis, rows, number, level + 1, queue, steps)?;
    }
    Ok(())
}

// Scans the numbers of one level.
fn visit_level<G: LinkSource, L: Ledger>(
    basis: &Basis<'_, G>,
    rows: &mut MarkRows,
    level: u32,
    now: &[u64],
    queue: &mut Vec<u64>,
    steps: &mut Steps<L>,
) -> Result<(), NoMemory>
    ensures rows { AddsMarks rows.old.entries rows.new.entries }
    ensures still { 2 ^ 32 ≤ level + 1 → queue.new.items ≡ queue.old.items }
    ensures falls { let layer = layer_of G.seen basis.now in
        OnOk result ((start : ℕ) (seeds : List (ℕ × ℕ))
        → Falls (layer rows.old.entries) start seeds level now.now queue.old.items
        → Falls (layer rows.new.entries) start seeds level [] queue.new.items) }
    ensures charged { let layer = layer_of G.seen basis.now in
        (start before : ℕ) (seeds : List (ℕ × ℕ)) (first : ℕ → Option ℕ)
        → Falls (layer rows.old.entries) start seeds level now.now queue.old.items
        → Charges (layer rows.old.entries) start first (level + 1) before
        (steps.old + sum_by (G.seen basis.now.graph.now).count now.now) queue.old.items
        → Charges (layer rows.new.entries) start first (level + 1) before steps.new
        queue.new.items }
{
    for number in now {
        visit(basis, rows, level, *number, queue, steps)?;
    }
    Ok(())
}

// Takes out the seeds of a level that is not above that of any seed, and puts their numbers into
// the queue of the level.
fn admit_seeds<G: LinkSource>(
    basis: &Basis<'_, G>,
    rows: &mut MarkRows,
    level: u32,
    seeds: &mut Seeds,
    queue: &mut Vec<u64>,
) -> Result<(), NoMemory>
    ensures rows { AddsMarks rows.old.entries rows.new.entries }
    ensures above { OnOk result (All (λ s. level ≤ s.0) seeds.old
        → All (λ s. level < s.0) seeds.new) }
    ensures falls { let layer = layer_of G.seen basis.now in
        OnOk result ((start : ℕ)
        → Falls (layer rows.old.entries) start seeds.old level queue.old.items []
        → Falls (layer rows.new.entries) start seeds.new level queue.new.items []) }
    ensures charged { let layer = layer_of G.seen basis.now in
        (start before owed : ℕ) (first : ℕ → Option ℕ)
        → Falls (layer rows.old.entries) start seeds.old level queue.old.items []
        → Charges (layer rows.old.entries) start first level before owed queue.old.items
        → Charges (layer rows.new.entries) start first level before owed queue.new.items }
{
    while let Some(number) = seeds.pop_at(level) {
        enqueue(basis.base, rows, level, number, queue)?;
    }
    Ok(())
}

// Lowers marks until they are the depths: each seed stands for a walk, and where a walk goes on
// there is a mark that is low enough, or a seed.
//
// A number comes into the queue once, when its mark is set, and not once for each link. After want
// of memory only some marks have fallen.
pub(crate) fn spread<G: LinkSource, L: Ledger>(
    alloc: Global,
    basis: &Basis<'_, G>,
    rows: &mut MarkRows,
    seeds: Vec<Seed>,
    steps: &mut Steps<L>,
) -> Result<(), NoMemory>
    ensures rows { AddsMarks rows.old.entries rows.new.entries }
    ensures depths { let layer = layer_of G.seen basis.now in
        OnOk result ((start : ℕ)
        → MayFall (layer rows.old.entries) start (λ k v. Contains seeds.items (k, v))
        → HasDepths (layer rows.new.entries) start) }
    ensures charged { let layer = layer_of G.seen basis.now rows.old.entries in
        (start : ℕ) → MayFall layer start (λ k v. Contains seeds.items (k, v))
        → IsWithin layer.graph.count (IsShortened layer start) 1 steps.old steps.new }
{
    let mut waiting = Seeds::sort_seeds(seeds);
    let mut now: Vec<u64> = Vec::new(alloc);
    let mut next: Vec<u64> = Vec::new(alloc);
    let mut floor: u64 = 0;
    while let Some(level) = least_level(floor, &next, &waiting) {
        now.clear();
        mem::swap(&mut now, &mut next);
        admit_seeds(basis, rows, level, &mut waiting, &mut now)?;
        visit_level(basis, rows, level, &now, &mut next, steps)?;
        floor = u64::from(level) + 1;
    }
    Ok(())
}
