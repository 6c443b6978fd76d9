//! What a change of the graph does to a subscription.
ghost use Rattle.std.specs.Prelude.{◌≡◌, false, IfOk};
ghost use Rattle.std.specs.List.{list_any};
ghost use Rattle.ifmap_delta.specs.Bounds.{IsNear, IsWithinBound, one_and_links};
ghost use Rattle.ifmap_delta.specs.Changes.{IsMovedBetween};
ghost use Rattle.ifmap_delta.specs.Flipped.{is_near};
ghost use Rattle.ifmap_delta.specs.Located.{IsPlannedDraft};
ghost use Rattle.ifmap_delta.specs.SeenViews.{AreMarks, HasMarks, IsUpToDate, view_seen};
ghost use Rattle.ifmap_region.specs.Bounds.{IsWithin};
ghost use Rattle.ifmap_region.specs.Marks.{mark_of, mark_over};

use crate::differing::{differences_on, size_after};
use crate::flips::flips_of;
use crate::locating::LocatedPlan;
use crate::marks::Patched;
use crate::near::is_any_near;
use crate::sides::Side;
use crate::subscriptions::{Moved, Subscription};
use crate::touched::touched_items;
use ifmap_elem::Many;
use ifmap_fresh::LinksOf;
use ifmap_fresh::laws::{levels_are_walks, links_go_both_ways, numbers_keep_walks};
use ifmap_ident::laws::bytes_tell_identifiers_apart;
use ifmap_region::{Patch, repair};
use ifmap_steps::Steps;
use ifmap_view::View;
use std::alloc::{AllocError as NoMemory, Global};
use std::sync::ledger::Ledger;

/// What a change of the graph does to a subscription that keeps what the graph has: what its result
/// loses and what it gains, each in the order of results, the new size, also where the search does
/// not allow it, and the patch that brings its marks to those of the draft.
///
/// The draft shows the graph after the plan, with the same numbers. The only error is want of memory,
/// also where the new size passes 2^64 - 1. Nothing of the subscription changes.
///
/// It takes at most ten times the links of what is near the links that came and went, also at want
/// of memory.
pub fn change<'a, G: View, D: View, L: Ledger>(
    alloc: Global,
    subscription: &'a Subscription,
    graph: &'a G,
    draft: &'a D,
    located: &LocatedPlan<'_>,
    steps: &mut Steps<L>,
) -> Result<Moved, NoMemory>
    requires planned { IsPlannedDraft (view_seen G.rows G.id_at G.links graph.now)
        (view_seen D.rows D.id_at D.links draft.now) located.now }
    requires kept { IsUpToDate (view_seen G.rows G.id_at G.links graph.now) subscription.now }
    ensures moved { IfOk result (IsMovedBetween (view_seen G.rows G.id_at G.links graph.now)
        (view_seen D.rows D.id_at D.links draft.now) subscription.now) }

    // Also at want of memory.
    ensures steps { IsWithinBound (view_seen G.rows G.id_at G.links graph.now)
        (view_seen D.rows D.id_at D.links draft.now) subscription.now.search
        subscription.now.region.start steps.old steps.new }
{
    if !is_any_near(&subscription.region, &located.changes) {
        return move_nothing(alloc, subscription, graph, draft, located, steps);
    }
    bytes_tell_identifiers_apart();
    let patch = patch_for(alloc, subscription, graph, draft, located, steps)?;
    let search = &subscription.search;
    let before = Side {
        view: graph,
        search,
        marks: &subscription.region,
    };
    let patched = Patched {
        region: &subscription.region,
        patch: &patch,
    };
    let after = Side {
        view: draft,
        search,
        marks: &patched,
    };
    let plan = located.plan;
    let changes = plan.changes.as_slice();
    let items = touched_items(alloc, &before, &after, changes, &located.changes, steps)?;
    let told = differences_on(alloc, &before, &after, items, changes)?;
    let Some(new_size) = size_after(subscription.size, &told) else {
        return Err(NoMemory);
    };
    Ok(Moved {
        deleted: Many(told.deleted),
        updated: Many(told.updated),
        patch,
        new_size,
    })
}

// What a change does to a subscription of which no item has an end with a mark: nothing. No walk meets
// what it changes, so the marks are those of the draft already.
fn move_nothing<'a, G: View, D: View, L: Ledger>(
    alloc: Global,
    subscription: &'a Subscription,
    graph: &'a G,
    draft: &'a D,
    located: &LocatedPlan<'_>,
    steps: &mut Steps<L>,
) -> Result<Moved, NoMemory>
    requires planned { IsPlannedDraft (view_seen G.rows G.id_at G.links graph.now)
        (view_seen D.rows D.id_at D.links draft.now) located.now }
    requires kept { IsUpToDate (view_seen G.rows G.id_at G.links graph.now) subscription.now }
    requires far { list_any (is_near (mark_of subscription.now.region.marks.entries))
        located.now.changes.items ≡ false }
    ensures moved { IfOk result (IsMovedBetween (view_seen G.rows G.id_at G.links graph.now)
        (view_seen D.rows D.id_at D.links draft.now) subscription.now) }
    ensures steps { IsWithinBound (view_seen G.rows G.id_at G.links graph.now)
        (view_seen D.rows D.id_at D.links draft.now) subscription.now.search
        subscription.now.region.start steps.old steps.new }
{
    bytes_tell_identifiers_apart();
    links_go_both_ways();
    levels_are_walks();
    numbers_keep_walks();
    let links = LinksOf {
        view: draft,
        search: &subscription.search,
    };
    let patch = repair(alloc, &subscription.region, &links, &[], steps)?;
    Ok(Moved {
        deleted: Many::new(alloc),
        updated: Many::new(alloc),
        patch,
        new_size: subscription.size,
    })
}

// The patch that brings a subscription's marks to those of the draft.
fn patch_for<'a, G: View, D: View, L: Ledger>(
    alloc: Global,
    subscription: &'a Subscription,
    graph: &'a G,
    draft: &'a D,
    located: &LocatedPlan<'_>,
    steps: &mut Steps<L>,
) -> Result<Patch, NoMemory>
    requires planned { IsPlannedDraft (view_seen G.rows G.id_at G.links graph.now)
        (view_seen D.rows D.id_at D.links draft.now) located.now }
    requires marks { HasMarks (view_seen G.rows G.id_at G.links graph.now) subscription.now }
    ensures marks { IfOk result (λ patch. AreMarks (view_seen D.rows D.id_at D.links draft.now)
        subscription.now.search subscription.now.region.start subscription.now.region.max_depth
        (mark_over patch (mark_of subscription.now.region.marks.entries))) }
    ensures steps { let old = view_seen G.rows G.id_at G.links graph.now in
        let new = view_seen D.rows D.id_at D.links draft.now in
        IsWithin (one_and_links old new subscription.now.search)
        (IsNear old new subscription.now.search subscription.now.region.start) 5
        steps.old steps.new }
{
    bytes_tell_identifiers_apart();
    links_go_both_ways();
    let search = &subscription.search;
    let plan = located.plan;
    let flips = flips_of(
        alloc,
        search,
        &subscription.region,
        plan.changes.as_slice(),
        &located.changes,
    )?;
    let links = LinksOf {
        view: draft,
        search,
    };
    repair(alloc, &subscription.region, &links, &flips, steps)
}
