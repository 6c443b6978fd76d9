//! At which level a number is looked at first.
ghost use Rattle.std.specs.Prelude.{◌≡◌, ℕ, ◌+◌, ◌≤◌, ◌++◌, ◌∷◌, [], ◌⊎◌, Some, true, false, IfSome, IfOk, OnOk, MatchOption};
ghost use Rattle.ifmap_region.specs.Layers.{layer_of, IsNextOf, MayHoldAt, LowersTo};
ghost use Rattle.ifmap_region.specs.Seeds.{SeedsAlong};

use crate::bases::Basis;
use crate::flips::Flip;
use crate::levels::Seed;
use crate::link_source::LinkSource;
use crate::rows::{MarkRows, is_mark, is_within, mark};
use std::alloc::{AllocError as NoMemory, Global};

// The level that follows the mark of the number, where a walk may go on from it.
pub(crate) fn next_of<G: LinkSource>(
    basis: &Basis<'_, G>,
    rows: &MarkRows,
    number: u64,
) -> Option<u32>
    ensures only { let layer = layer_of G.seen basis.now rows.now.entries in
        IfSome result (λ k. IsNextOf layer number k) }
    ensures each { let layer = layer_of G.seen basis.now rows.now.entries in
        (k : ℕ) → IsNextOf layer number k → result ≡ Some k }
{
    match mark(basis.base, rows, number) {
        Some(known) => {
            if known < basis.top && !basis.graph.is_terminal(number) {
                Some(known + 1)
            } else {
                None
            }
        }
        None => None,
    }
}

// The mark of `to`, where `from` may have held it.
fn held_mark<G: LinkSource>(
    basis: &Basis<'_, G>,
    rows: &MarkRows,
    from: u64,
    to: u64,
) -> Option<u32>
    ensures only { let layer = layer_of G.seen basis.now rows.now.entries in
        IfSome result (λ k. MayHoldAt layer from to k) }
    ensures each { let layer = layer_of G.seen basis.now rows.now.entries in
        (k : ℕ) → MayHoldAt layer from to k → result ≡ Some k }
{
    match next_of(basis, rows, from) {
        Some(level) => {
            if is_mark(mark(basis.base, rows, to), level) {
                Some(level)
            } else {
                None
            }
        }
        None => None,
    }
}

// The level to which `from` lowers `to`.
fn lowered_level<G: LinkSource>(
    basis: &Basis<'_, G>,
    rows: &MarkRows,
    from: u64,
    to: u64,
) -> Option<u32>
    ensures only { let layer = layer_of G.seen basis.now rows.now.entries in
        IfSome result (λ k. LowersTo layer from to k) }
    ensures each { let layer = layer_of G.seen basis.now rows.now.entries in
        (k : ℕ) → LowersTo layer from to k → result ≡ Some k }
{
    match next_of(basis, rows, from) {
        Some(level) => {
            if is_within(mark(basis.base, rows, to), level) {
                None
            } else {
                Some(level)
            }
        }
        None => None,
    }
}

// Puts a seed in, where there is a level.
pub(crate) fn offer(seeds: &mut Vec<Seed>, level: Option<u32>, number: u64) -> Result<(), NoMemory>
    ensures { OnOk result (MatchOption level (seeds.new.items ≡ seeds.old.items)
        (λ k. seeds.new.items ≡ seeds.old.items ++ (k, number) ∷ [])) }
{
    if let Some(level) = level {
        seeds.push(Seed { level, number })?;
    }
    Ok(())
}

// The ends of removed links that the other end may have held, at their marks.
pub(crate) fn held_seeds<G: LinkSource>(
    alloc: Global,
    basis: &Basis<'_, G>,
    rows: &MarkRows,
    flips: &[Flip],
) -> Result<Vec<Seed>, NoMemory>
    ensures { let layer = layer_of G.seen basis.now rows.now.entries in
        IfOk result (λ seeds. SeedsAlong flips.now false (MayHoldAt layer) seeds.items) }
{
    let mut seeds = Vec::new(alloc);
    for flip in flips {
        if !flip.added {
            let at_b = held_mark(basis, rows, flip.a, flip.b);
            offer(&mut seeds, at_b, flip.b)?;
            let at_a = held_mark(basis, rows, flip.b, flip.a);
            offer(&mut seeds, at_a, flip.a)?;
        }
    }
    Ok(seeds)
}

// The ends of added links that the other end lowers, at the levels to which it does.
pub(crate) fn lowered_seeds<G: LinkSource>(
    alloc: Global,
    basis: &Basis<'_, G>,
    rows: &MarkRows,
    flips: &[Flip],
) -> Result<Vec<Seed>, NoMemory>
    ensures { let layer = layer_of G.seen basis.now rows.now.entries in
        IfOk result (λ seeds. SeedsAlong flips.now true (LowersTo layer) seeds.items) }
{
    let mut seeds = Vec::new(alloc);
    for flip in flips {
        if flip.added {
            let at_b = lowered_level(basis, rows, flip.a, flip.b);
            offer(&mut seeds, at_b, flip.b)?;
            let at_a = lowered_level(basis, rows, flip.b, flip.a);
            offer(&mut seeds, at_a, flip.a)?;
        }
    }
    Ok(seeds)
}
