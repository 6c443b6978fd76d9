//! Marks are taken away, level by level, where what held them is gone.
ghost use Rattle.std.specs.Prelude.{◌≡◌, ℕ, suc, ◌+◌, ◌<◌, ◌≤◌, ◌^◌, ◌∷◌, [], All, Some, true, false, List, OnOk, IfOk};
ghost use Rattle.ifmap_region.specs.declared.flips.Flip.{Flip};
ghost use Rattle.ifmap_region.specs.Layers.{Layer, layer_of, with_rows, HasHolder, MayHoldAt, IsUncut, IsBeingCut, IsNearCut, IsUnheld, AreFollowed};
ghost use Rattle.ifmap_region.specs.Losing.{Awaits};
ghost use Rattle.ifmap_region.specs.Seeds.{SeedsAlong};

use crate::bases::Basis;
use crate::levels::{Seed, Seeds, least_level};
use crate::link_source::LinkSource;
use crate::rows::{MarkRows, has_row, is_mark, mark, mark_in, put};
use ifmap_steps::Steps;
use indexmap::IndexMap;
use std::alloc::{AllocError as NoMemory, Global};
use std::mem;
use std::sync::ledger::Ledger;

// What cutting links has changed so far: rows with the marks that may go, and the numbers whose
// marks went.
#[derive(Drop)]
pub(crate) struct Losses {
    pub(crate) rows: MarkRows,
    pub(crate) gone: Vec<u64>,
}

// Whether there is a mark, and it is one below the level.
fn is_just_below(mark: Option<u32>, level: u32) -> bool
    ensures yes { result ≡ true → (d : ℕ) × (mark ≡ Some d) × (level ≡ suc d) }
    ensures no { result ≡ false → (d : ℕ) → mark ≡ Some d → level ≡ suc d → ⊥ }
{
    match mark {
        Some(known) => known < level && known + 1 == level,
        None => false,
    }
}

// Whether a neighbour that is nearer by one, and not terminal, has its mark. The look ends at the
// first.
fn is_held<G: LinkSource, L: Ledger>(
    basis: &Basis<'_, G>,
    rows: &MarkRows,
    number: u64,
    level: u32,
    steps: &mut Steps<L>,
) -> bool
    ensures yes { let layer = layer_of G.seen basis.now rows.now.entries in
        result ≡ true → HasHolder layer number level }
    ensures no { let layer = layer_of G.seen basis.now rows.now.entries in
        result ≡ false → IsUnheld layer number level }
    ensures steps { steps.new ≤ steps.old + (G.seen basis.now.graph.now).count number }
{
    for i in 0..basis.graph.count(number) {
        if let Some(neighbour) = basis.graph.at(number, i, steps) {
            let known = mark(basis.base, rows, neighbour);
            if is_just_below(known, level) && !basis.graph.is_terminal(neighbour) {
                return true;
            }
        }
    }
    false
}

// Gives a number a row with the mark of a level and puts it into the queue, unless it has a row.
fn enqueue(
    rows: &mut MarkRows,
    level: u32,
    number: u64,
    queue: &mut Vec<u64>,
) -> Result<(), NoMemory>
    ensures { OnOk result (Awaits level number rows.old.entries rows.new.entries queue.old.items
        queue.new.items) }
{
    if has_row(rows, number) {
        return Ok(());
    }
    put(rows, number, Some(level))?;
    queue.push(number)?;
    Ok(())
}

// Whether a walk goes on from a number that has the level.
fn goes_on<G: LinkSource>(basis: &Basis<'_, G>, level: u32, number: u64) -> bool
    ensures yes { result ≡ true → level < basis.now.top }
    ensures no { result ≡ false → level < basis.now.top
        → (G.seen basis.now.graph.now).terminal number ≡ false → ⊥ }
{
    level < basis.top && !basis.graph.is_terminal(number)
}

// Puts the neighbours of a number of the level into the queue that it may have held: those that had
// the next level as their mark. There are none where no walk goes on from the number.
fn follow<G: LinkSource, L: Ledger>(
    basis: &Basis<'_, G>,
    rows: &mut MarkRows,
    level: u32,
    number: u64,
    queue: &mut Vec<u64>,
    steps: &mut Steps<L>,
) -> Result<(), NoMemory>
    ensures keeps { let layer = layer_of G.seen basis.now in
        OnOk result ((flips : List Flip) (start before spent : ℕ) (gone rest : List ℕ)
        (seeds : List (ℕ × ℕ)) → IsUncut (layer rows.old.entries) flips start
        → IsUnheld (layer rows.old.entries) number level
        → IsBeingCut (layer rows.old.entries) flips start gone seeds level (number ∷ rest)
        queue.old.items before spent
        → IsBeingCut (layer rows.new.entries) flips start gone seeds level (number ∷ rest)
        queue.new.items before spent) }
    ensures unheld { let layer = layer_of G.seen basis.now in
        OnOk result (IsUnheld (layer rows.old.entries) number level
        → IsUnheld (layer rows.new.entries) number level) }
    ensures followed { let layer = layer_of G.seen basis.now rows.new.entries in
        OnOk result (AreFollowed layer number level) }
    ensures still { 2 ^ 32 ≤ level + 1 → queue.new.items ≡ queue.old.items }
    ensures steps { steps.new ≤ steps.old + (G.seen basis.now.graph.now).count number }
{
    if !goes_on(basis, level, number) {
        return Ok(());
    }
    for i in 0..basis.graph.count(number) {
        if let Some(neighbour) = basis.graph.at(number, i, steps) {
            if is_mark(mark_in(basis.base, neighbour), level + 1) {
                enqueue(rows, level + 1, neighbour, queue)?;
            }
        }
    }
    Ok(())
}

// Looks at a number that may have lost what held it, the first of the queue of its level: it keeps
// its mark where a neighbour holds it. Otherwise it loses its mark, and the neighbours that it may
// have held come into the queue of the next level.
fn look<G: LinkSource, L: Ledger>(
    basis: &Basis<'_, G>,
    losses: &mut Losses,
    level: u32,
    number: u64,
    queue: &mut Vec<u64>,
    steps: &mut Steps<L>,
) -> Result<(), NoMemory>
    ensures keeps { let layer = layer_of G.seen basis.now in
        OnOk result ((flips : List Flip) (start before : ℕ) (rest : List ℕ) (seeds : List (ℕ × ℕ))
        → IsUncut (layer losses.old.rows.entries) flips start
        → IsBeingCut (layer losses.old.rows.entries) flips start losses.old.gone.items seeds level
        (number ∷ rest) queue.old.items before steps.old
        → IsBeingCut (layer losses.new.rows.entries) flips start losses.new.gone.items seeds level
        rest queue.new.items before steps.new) }
    ensures spent { let layer = layer_of G.seen basis.now in
        (flips : List Flip) (start before : ℕ) (rest : List ℕ) (seeds : List (ℕ × ℕ))
        → IsBeingCut (layer losses.old.rows.entries) flips start losses.old.gone.items seeds level
        (number ∷ rest) queue.old.items before steps.old
        → IsNearCut (layer []) flips start 2 before steps.new }
    ensures still { 2 ^ 32 ≤ level + 1 → queue.new.items ≡ queue.old.items }
{
    if is_held(basis, &losses.rows, number, level, steps) {
        return Ok(());
    }
    follow(basis, &mut losses.rows, level, number, queue, steps)?;
    put(&mut losses.rows, number, None)?;
    losses.gone.push(number)?;
    Ok(())
}

// Looks at the numbers of one level.
fn look_level<G: LinkSource, L: Ledger>(
    basis: &Basis<'_, G>,
    losses: &mut Losses,
    level: u32,
    now: &[u64],
    queue: &mut Vec<u64>,
    steps: &mut Steps<L>,
) -> Result<(), NoMemory>
    ensures keeps { let layer = layer_of G.seen basis.now in
        OnOk result ((flips : List Flip) (start before : ℕ) (seeds : List (ℕ × ℕ))
        → IsUncut (layer losses.old.rows.entries) flips start
        → IsBeingCut (layer losses.old.rows.entries) flips start losses.old.gone.items seeds level
        now.now queue.old.items before steps.old
        → IsBeingCut (layer losses.new.rows.entries) flips start losses.new.gone.items seeds level
        [] queue.new.items before steps.new) }
    ensures spent { let layer = layer_of G.seen basis.now in
        (flips : List Flip) (start before : ℕ) (seeds : List (ℕ × ℕ))
        → IsUncut (layer losses.old.rows.entries) flips start
        → IsBeingCut (layer losses.old.rows.entries) flips start losses.old.gone.items seeds level
        now.now queue.old.items before steps.old
        → IsNearCut (layer []) flips start 2 before steps.new }
    ensures still { 2 ^ 32 ≤ level + 1 → queue.new.items ≡ queue.old.items }
{
    for number in now {
        look(basis, losses, level, *number, queue, steps)?;
    }
    Ok(())
}

// Takes out the seeds of a level that is not above that of any seed, and puts their numbers into
// the queue of the level.
fn queue_seeds(
    rows: &mut MarkRows,
    level: u32,
    seeds: &mut Seeds,
    queue: &mut Vec<u64>,
) -> Result<(), NoMemory>
    ensures above { OnOk result (All (λ s. level ≤ s.0) seeds.old
        → All (λ s. level < s.0) seeds.new) }
    ensures keeps { OnOk result ((layer : Layer) (flips : List Flip) (start before spent : ℕ)
        (gone : List ℕ) → IsUncut layer flips start
        → IsBeingCut (with_rows layer rows.old.entries) flips start gone seeds.old level
        queue.old.items [] before spent
        → IsBeingCut (with_rows layer rows.new.entries) flips start gone seeds.new level
        queue.new.items [] before spent) }
{
    while let Some(number) = seeds.pop_at(level) {
        enqueue(rows, level, number, queue)?;
    }
    Ok(())
}

// Takes away the mark of each number that has another depth over the links of the graph than over
// these and the removed ones, and gives those numbers.
//
// A number comes into the queue once, when it gets its row, and not once for each link.
pub(crate) fn lose<G: LinkSource, L: Ledger>(
    alloc: Global,
    basis: &Basis<'_, G>,
    seeds: Vec<Seed>,
    steps: &mut Steps<L>,
) -> Result<Losses, NoMemory>
    ensures keeps { let layer = layer_of G.seen basis.now in
        IfOk result (λ losses. (flips : List Flip) (start : ℕ) → IsUncut (layer []) flips start
        → SeedsAlong flips false (MayHoldAt (layer [])) seeds.items
        → (level : ℕ) × IsBeingCut (layer losses.rows.entries) flips start losses.gone.items []
        level [] [] steps.old steps.new) }
    ensures spent { let layer = layer_of G.seen basis.now [] in
        (flips : List Flip) (start : ℕ) → IsUncut layer flips start
        → SeedsAlong flips false (MayHoldAt layer) seeds.items
        → IsNearCut layer flips start 2 steps.old steps.new }
{
    let mut losses = Losses {
        rows: IndexMap::new(alloc),
        gone: Vec::new(alloc),
    };
    let mut waiting = Seeds::sort_seeds(seeds);
    let mut now: Vec<u64> = Vec::new(alloc);
    let mut next: Vec<u64> = Vec::new(alloc);
    let mut floor: u64 = 0;
    while let Some(level) = least_level(floor, &next, &waiting) {
        now.clear();
        mem::swap(&mut now, &mut next);
        queue_seeds(&mut losses.rows, level, &mut waiting, &mut now)?;
        look_level(basis, &mut losses, level, &now, &mut next, steps)?;
        floor = u64::from(level) + 1;
    }
    Ok(losses)
}
