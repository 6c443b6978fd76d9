//! Added links are grown along: the depths over the new links.
ghost use Rattle.std.specs.Prelude.{◌≡◌, ℕ, true, OnOk};
ghost use Rattle.ifmap_region.specs.Flips.{IsFlipped};
ghost use Rattle.ifmap_region.specs.Layers.{layer_of, links, HasDepths, IsUngrown, IsNearGrowth};

use crate::bases::Basis;
use crate::flips::Flip;
use crate::link_source::LinkSource;
use crate::rows::MarkRows;
use crate::seeds::lowered_seeds;
use crate::spread::spread;
use ifmap_steps::Steps;
use std::alloc::{AllocError as NoMemory, Global};
use std::sync::ledger::Ledger;

// From depths over the links of the graph without the added ones, depths over all its links.
//
// Each end of an added link that the other end lowers is a seed, and marks fall from there.
pub(crate) fn grow<G: LinkSource, L: Ledger>(
    alloc: Global,
    basis: &Basis<'_, G>,
    rows: &mut MarkRows,
    flips: &[Flip],
    steps: &mut Steps<L>,
) -> Result<(), NoMemory>
    requires { let layer = layer_of G.seen basis.now rows.old.entries in
        (v w : ℕ) → IsFlipped flips.now true v w → links layer v w }
    ensures depths { let layer = layer_of G.seen basis.now in
        OnOk result ((start : ℕ) → IsUngrown (layer rows.old.entries) flips.now start
        → HasDepths (layer rows.new.entries) start) }
    ensures steps { let layer = layer_of G.seen basis.now rows.old.entries in
        (start : ℕ) → IsUngrown layer flips.now start
        → IsNearGrowth layer flips.now start 1 steps.old steps.new }
{
    let seeds = lowered_seeds(alloc, basis, rows, flips)?;
    spread(alloc, basis, rows, seeds, steps)
}
