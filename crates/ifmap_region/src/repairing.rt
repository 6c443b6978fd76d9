//! Marks are repaired after links came and went, at a cost that is bounded by what is near these.
ghost use Rattle.std.specs.Prelude.{◌≡◌, ◌≢◌, ℕ, ◌+◌, Option, Some, true, IfOk};
ghost use Rattle.ifmap_region.specs.Bounds.{IsWithin};
ghost use Rattle.ifmap_region.specs.Flips.{IsFlipped, OldLinks};
ghost use Rattle.ifmap_region.specs.Links.{links_of, IsSymmetric};
ghost use Rattle.ifmap_region.specs.Marks.{mark_of, row_of, mark_over};
ghost use Rattle.ifmap_region.specs.Near.{NearFlips};
ghost use Rattle.ifmap_region.specs.Walks.{AreDepths};

use crate::bases::Basis;
use crate::cut::cut;
use crate::flips::Flip;
use crate::grow::grow;
use crate::link_source::LinkSource;
use crate::mid::{Mid, near_pairs};
use crate::patch::{Patch, changed_rows};
use crate::region::Region;
use ifmap_steps::Steps;
use std::alloc::{AllocError as NoMemory, Global};
use std::sync::ledger::Ledger;

/// The patch that brings a region's marks from the links before the flips to those of `graph`.
///
/// `graph` has the new links; the flips are the matching links in which the two graphs differ. Where
/// the marks are the depths over the old links, they are exactly the depths over the new ones after
/// the patch. The call is safe for any marks. The only error is want of memory.
///
/// Removed links are cut first, then marks fall along the added ones, so the steps are bounded by
/// the links of what is near the flips.
pub fn repair<G: LinkSource, L: Ledger>(
    alloc: Global,
    region: &Region,
    graph: &G,
    flips: &[Flip],
    steps: &mut Steps<L>,
) -> Result<Patch, NoMemory>
    requires symmetric { IsSymmetric (links_of (G.seen graph.now)) }
    requires added { (v w : ℕ) → IsFlipped flips.now true v w
        → links_of (G.seen graph.now) v w }
    ensures depths { let seen = G.seen graph.now in
        IfOk result (λ patch.
        AreDepths (OldLinks (links_of seen) flips.now) seen.terminal region.now.start
        region.now.max_depth (mark_of region.now.marks.entries)
        → AreDepths (links_of seen) seen.terminal region.now.start region.now.max_depth
        (mark_over patch (mark_of region.now.marks.entries))) }

    // The patch has only marks that come, go or change.
    ensures changes { IfOk result (λ patch. (v : ℕ) (r : Option ℕ) → row_of patch v ≡ Some r
        → r ≢ mark_of region.now.marks.entries v) }

    // Also at want of memory.
    ensures steps { let seen = G.seen graph.now in
        AreDepths (OldLinks (links_of seen) flips.now) seen.terminal region.now.start
        region.now.max_depth (mark_of region.now.marks.entries)
        → IsWithin (λ v. 1 + seen.count v) (NearFlips (links_of seen) flips.now seen.terminal
        region.now.start region.now.max_depth) 5 steps.old steps.new }
{
    let base = &region.marks;
    let top = region.max_depth;
    let hidden = near_pairs(alloc, base, flips)?;
    let mid = Mid { graph, hidden };
    let before = Basis {
        base,
        top,
        graph: &mid,
    };
    let mut rows = cut(alloc, &before, flips, steps)?;
    let after = Basis { base, top, graph };
    grow(alloc, &after, &mut rows, flips, steps)?;
    let rows = changed_rows(alloc, base, &rows)?;
    Ok(Patch { rows })
}
