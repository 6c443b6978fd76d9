//! Removed links are cut: the depths over the links that stay.
ghost use Rattle.std.specs.Prelude.{◌≡◌, ℕ, ◌+◌, ◌≤◌, ◌⊎◌, [], Some, IfSome, IfOk, OnOk, sum_by};
ghost use Rattle.ifmap_region.specs.Layers.{layer_of, links, marks, HasDepths, IsNextOf, IsUncut, IsNearCut};
ghost use Rattle.ifmap_region.specs.Losing.{Reseeds};

use crate::bases::Basis;
use crate::flips::Flip;
use crate::levels::Seed;
use crate::link_source::LinkSource;
use crate::lose::{Losses, lose};
use crate::rows::MarkRows;
use crate::seeds::{held_seeds, next_of, offer};
use crate::spread::spread;
use ifmap_steps::Steps;
use indexmap::IndexMap;
use std::alloc::{AllocError as NoMemory, Global};
use std::sync::ledger::Ledger;

// The lesser of two levels, where there are two.
fn lesser_depth(a: Option<u32>, b: Option<u32>) -> Option<u32>
    ensures one { (result ≡ a) ⊎ (result ≡ b) }
    ensures first { (k : ℕ) → a ≡ Some k → (m : ℕ) × (m ≤ k) × (result ≡ Some m) }
    ensures second { (k : ℕ) → b ≡ Some k → (m : ℕ) × (m ≤ k) × (result ≡ Some m) }
{
    match a {
        Some(x) => match b {
            Some(y) => { if x <= y { Some(x) } else { Some(y) } }
            None => Some(x),
        },
        None => b,
    }
}

// The least level that a neighbour gives the number.
fn lowest_level<G: LinkSource, L: Ledger>(
    basis: &Basis<'_, G>,
    rows: &MarkRows,
    number: u64,
    steps: &mut Steps<L>,
) -> Option<u32>
    ensures only { let layer = layer_of G.seen basis.now rows.now.entries in
        IfSome result (λ k. (u : ℕ) × links layer number u × IsNextOf layer u k) }
    ensures least { let layer = layer_of G.seen basis.now rows.now.entries in
        (u k : ℕ) → links layer number u → IsNextOf layer u k
        → (m : ℕ) × (m ≤ k) × (result ≡ Some m) }
    ensures steps { steps.new ≤ steps.old + (G.seen basis.now.graph.now).count number }
{
    let mut least = None;
    for i in 0..basis.graph.count(number) {
        if let Some(neighbour) = basis.graph.at(number, i, steps) {
            least = lesser_depth(least, next_of(basis, rows, neighbour));
        }
    }
    least
}

// A seed for each number that is gone and has a neighbour from which a walk goes on.
fn reseed<G: LinkSource, L: Ledger>(
    alloc: Global,
    basis: &Basis<'_, G>,
    rows: &MarkRows,
    gone: &[u64],
    steps: &mut Steps<L>,
) -> Result<Vec<Seed>, NoMemory>
    ensures seeds { let layer = layer_of G.seen basis.now rows.now.entries in
        IfOk result (λ seeds. Reseeds (links layer) layer.graph.terminal layer.top (marks layer)
        gone.now seeds.items) }
    ensures steps { steps.new ≤ steps.old + sum_by (G.seen basis.now.graph.now).count gone.now }
{
    let mut seeds = Vec::new(alloc);
    for number in gone {
        let level = lowest_level(basis, rows, *number, steps);
        offer(&mut seeds, level, *number)?;
    }
    Ok(seeds)
}

// From depths over the links of the graph and the removed ones, the rows that make them depths over
// the links of the graph alone.
//
// A number whose mark may have rested on a removed link is looked at, level by level: it keeps its
// mark where a neighbour that stays holds it. What lost its mark is then found again from what is
// left.
pub(crate) fn cut<G: LinkSource, L: Ledger>(
    alloc: Global,
    basis: &Basis<'_, G>,
    flips: &[Flip],
    steps: &mut Steps<L>,
) -> Result<MarkRows, NoMemory>
    ensures depths { let layer = layer_of G.seen basis.now in
        IfOk result (λ rows. (start : ℕ) → IsUncut (layer rows.entries) flips.now start
        → HasDepths (layer rows.entries) start) }
    ensures steps { let layer = layer_of G.seen basis.now [] in
        (start : ℕ) → IsUncut layer flips.now start
        → IsNearCut layer flips.now start 4 steps.old steps.new }
{
    let bare = IndexMap::new(alloc);
    let seeds = held_seeds(alloc, basis, &bare, flips)?;
    let losses = lose(alloc, basis, seeds, steps)?;
    let Losses { mut rows, gone } = losses;
    let found = reseed(alloc, basis, &rows, &gone, steps)?;
    spread(alloc, basis, &mut rows, found, steps)?;
    Ok(rows)
}
