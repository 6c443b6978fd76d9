//! Changes of a graph with a subscription, and their ways back.
ghost use Rattle.std.specs.Prelude.{◌≡◌, ◌<◌, Some, IfOk, OnOk};
ghost use Rattle.ifmap_delta.specs.Changes.{IsSubscribed, ShowsAfter, WouldKeep};
ghost use Rattle.ifmap_delta.specs.SeenViews.{IsUpToDate, ViewSeen};
ghost use Rattle.ifmap_delta_tests.specs.Worlds.{IsFitting, IsQuiet, IsWorldSeen, IsStepOut, KeepsRows};
ghost use Rattle.ifmap_changes.specs.Between.{seen_now};
ghost use Rattle.ifmap_changes.specs.Changes.{seen_next};
ghost use Rattle.ifmap_ident.specs.Canon.{IsIdentifier};
ghost use Rattle.ifmap_graph.specs.ifmap_pool.Holdings.{key_at};
ghost use Rattle.ifmap_region.specs.Ways.{HasRoom};

use crate::comparing::{is_as_in, take_snapshot, tells_difference};
use crate::faults::{Fault, fault_unless};
use crate::ops::Op;
use crate::worlds::{begin_change, graph_with, plan_of};
use ifmap_delta::{Moved, SubUndo, Subscribed, Subscription, change, locate_plan, subscribe};
use ifmap_elem::Copied;
use ifmap_fresh_tests::plain_search::find;
use ifmap_graph::{Draft, Graph, Ready};
use ifmap_plans::Plan;
use ifmap_search::{Found, Search, SearchError};
use ifmap_standing::laws::same_links_keep_subscriptions;
use ifmap_steps::Steps;
use ifmap_view::View;
use std::alloc::{AllocError as NoMemory, Global};
use std::marker::Brand;
use std::sync::ledger::{Blank, Ledger};

// What the search finds.
fn find_in<V: View>(alloc: Global, view: &V, search: &Search) -> Result<Found, Fault>
    requires { IsIdentifier search.now.start }
{
    match find(alloc, view, search) {
        Ok(found) => Ok(found),
        Err(SearchError::TooBig { .. }) => Err(Fault::TooBig),
        Err(SearchError::NoMemory) => Err(Fault::NoMemory),
    }
}

fn subscribe_with<L: Ledger>(
    alloc: Global,
    graph: &Graph,
    number: u64,
    search: Search,
    blank: Blank,
) -> Result<Subscribed, NoMemory>
    requires start { IsIdentifier search.start }
    requires number { key_at graph.now.names number ≡ Some search.start }
    requires name { blank.name ≡ L.name }
    requires parts { blank.parts ≡ L.parts }
    requires some { 0 < blank.parts }
    ensures { IfOk result (IsSubscribed (seen_now graph.now) search number) }
{
    let mut steps: Steps<L> = Steps::from_blank(blank);
    subscribe(alloc, graph, number, search, &mut steps)
}

// A subscription, and what it finds as it begins.
fn subscribe_to(
    alloc: Global,
    graph: &Graph,
    number: u64,
    search: Search,
) -> Result<(Subscription, Found), Fault>
    requires start { IsIdentifier search.start }
    requires number { key_at graph.now.names number ≡ Some search.start }
    ensures { IfOk result (λ made. IsUpToDate (seen_now graph.now) made.0) }
{
    match subscribe_with::<Brand>(alloc, graph, number, search, Blank::new(1))? {
        Subscribed::Kept {
            subscription,
            found,
        } => Ok((subscription, found)),
        Subscribed::TooBig { .. } => Err(Fault::TooBig),
    }
}

// A graph, and a subscription to what it shows.
#[derive(Drop)]
pub(crate) struct World {
    pub(crate) graph: Graph,
    pub(crate) subscription: Subscription,
}

// A graph after a first publish of `c1`, with a subscription, and what that finds as it begins.
pub(crate) fn begin_world(
    alloc: Global,
    search: Search,
    ops: &[Op],
) -> Result<(World, Found), Fault>
    requires { IsIdentifier search.start }
    ensures quiet { IfOk result (λ made. IsQuiet made.0.graph) }
    ensures kept { IfOk result (λ made. IsUpToDate (seen_now made.0.graph) made.0.subscription) }
{
    let (graph, number) = graph_with(alloc, &search.start, ops)?;
    let (subscription, found) = subscribe_to(alloc, &graph, number, search)?;
    Ok((
        World {
            graph,
            subscription,
        },
        found,
    ))
}

fn change_with<L: Ledger>(
    alloc: Global,
    subscription: &Subscription,
    graph: &Graph,
    plan: &Plan,
    blank: Blank,
) -> Result<Moved, NoMemory>
    requires now { IsWorldSeen (seen_now graph.now) }
    requires next { IsWorldSeen (seen_next graph.now) }
    requires kept { IsUpToDate (seen_now graph.now) subscription.now }
    requires change { ShowsAfter (seen_now graph.now) (seen_next graph.now) plan.now.changes }
    requires name { blank.name ≡ L.name }
    requires parts { blank.parts ≡ L.parts }
    requires some { 0 < blank.parts }
    ensures { IfOk result (λ moved. WouldKeep (seen_next graph.now) subscription.now moved.patch
        moved.new_size) }
{
    let mut steps: Steps<L> = Steps::from_blank(blank);
    let draft = Draft::of(graph);
    let located = locate_plan(alloc, graph, &draft, plan)?;
    let moved = change(alloc, subscription, graph, &draft, &located, &mut steps)?;
    Ok(moved)
}

fn check_lists(moved: &Moved, before: &Found, after: &Found) -> Result<(), Fault> {
    let goes = tells_difference(
        moved.deleted.as_slice(),
        before.entries.as_slice(),
        after.entries.as_slice(),
    );
    let comes = tells_difference(
        moved.updated.as_slice(),
        after.entries.as_slice(),
        before.entries.as_slice(),
    );
    fault_unless(goes, Fault::Deleted)?;
    fault_unless(comes, Fault::Updated)?;
    fault_unless(moved.new_size == after.size, Fault::Size)
}

// Whether a change tells what the searches before and after it differ by.
fn check_told(alloc: Global, graph: &Graph, search: &Search, moved: &Moved) -> Result<(), Fault>
    requires { IsIdentifier search.now.start }
{
    let before = find_in(alloc, graph, search)?;
    let after = find_in(alloc, &Draft::of(graph), search)?;
    check_lists(moved, &before, &after)
}

// What the change does to the subscription, beside what searches find.
fn change_of(
    alloc: Global,
    subscription: &Subscription,
    graph: &Graph,
    plan: &Plan,
) -> Result<Moved, Fault>
    requires now { IsWorldSeen (seen_now graph.now) }
    requires next { IsWorldSeen (seen_next graph.now) }
    requires kept { IsUpToDate (seen_now graph.now) subscription.now }
    requires change { ShowsAfter (seen_now graph.now) (seen_next graph.now) plan.now.changes }
    ensures { IfOk result (λ moved. WouldKeep (seen_next graph.now) subscription.now moved.patch
        moved.new_size) }
{
    let moved = change_with::<Brand>(alloc, subscription, graph, plan, Blank::new(1))?;
    check_told(alloc, graph, &subscription.search, &moved)?;
    Ok(moved)
}

// A change of the graph that is out, and what it does to the subscription.
#[derive(Drop)]
pub(crate) struct Step {
    pub(crate) ready: Ready,
    pub(crate) moved: Moved,
}

// Room for what a change does.
fn reserve(subscription: &mut Subscription, moved: &Moved) -> Result<(), NoMemory>
    ensures keeps { (g : ViewSeen) → WouldKeep g subscription.old moved.now.patch moved.now.new_size
        → WouldKeep g subscription.new moved.now.patch moved.now.new_size }
    ensures room { OnOk result (HasRoom moved.now.patch
        subscription.new.region.marks.entries) }
    ensures others { OnOk result (KeepsRows subscription.old subscription.new) }
{
    subscription.reserve(moved)
}

// The subscription is asked what a plan that is out does to it, and has room for that.
fn prepare_change(
    alloc: Global,
    graph: &Graph,
    subscription: &mut Subscription,
    plan: &Plan,
) -> Result<Moved, Fault>
    requires now { IsWorldSeen (seen_now graph.now) }
    requires next { IsWorldSeen (seen_next graph.now) }
    requires kept { IsUpToDate (seen_now graph.now) subscription.old }
    requires change { ShowsAfter (seen_now graph.now) (seen_next graph.now) plan.now.changes }
    ensures keeps { IfOk result (λ moved. WouldKeep (seen_next graph.now) subscription.new
        moved.patch moved.new_size) }
    ensures room { IfOk result (λ moved. HasRoom moved.patch
        subscription.new.region.marks.entries) }
    ensures others { OnOk result (KeepsRows subscription.old subscription.new) }
{
    let moved = change_of(alloc, subscription, graph, plan)?;
    reserve(subscription, &moved)?;
    Ok(moved)
}

// A plan comes to be out, and the subscription has room for what it does to it.
fn begin_step(
    alloc: Global,
    graph: &mut Graph,
    subscription: &mut Subscription,
    plan: Plan,
) -> Result<Step, Fault>
    requires quiet { IsQuiet graph.old }
    requires fitting { IsFitting graph.old plan }
    requires kept { IsUpToDate (seen_now graph.old) subscription.old }
    ensures out { IfOk result (λ step. IsStepOut graph.new subscription.new step.ready
        step.moved) }
    ensures others { OnOk result (KeepsRows subscription.old subscription.new) }
{
    same_links_keep_subscriptions();
    graph.is_view();
    let ready = begin_change(alloc, graph, plan)?;
    let moved = prepare_change(alloc, graph, subscription, &ready.plan)?;
    Ok(Step { ready, moved })
}

// The operations of a client come to be out.
pub(crate) fn step_by(
    alloc: Global,
    graph: &mut Graph,
    subscription: &mut Subscription,
    client: &str,
    ops: &[Op],
) -> Result<Step, Fault>
    requires quiet { IsQuiet graph.old }
    requires kept { IsUpToDate (seen_now graph.old) subscription.old }
    ensures out { IfOk result (λ step. IsStepOut graph.new subscription.new step.ready
        step.moved) }
    ensures others { OnOk result (KeepsRows subscription.old subscription.new) }
{
    let plan = plan_of(alloc, graph, client, ops)?;
    begin_step(alloc, graph, subscription, plan)
}

// The subscription takes a change over.
pub(crate) fn take_over(subscription: &mut Subscription, moved: Moved) -> SubUndo
    requires room { HasRoom moved.patch subscription.old.region.marks.entries }
    ensures kept { (g : ViewSeen) → WouldKeep g subscription.old moved.patch moved.new_size
        → IsUpToDate g subscription.new }
    ensures room { HasRoom result.0 subscription.new.region.marks.entries }
    ensures others { KeepsRows subscription.old subscription.new }
{
    subscription.commit_kept(moved.patch, moved.new_size)
}

// A change is made: in the subscription, whose way back is given, and in the graph.
pub(crate) fn make_step(graph: &mut Graph, subscription: &mut Subscription, step: Step) -> SubUndo
    requires { IsStepOut graph.old subscription.old step.ready step.moved }
    ensures quiet { IsQuiet graph.new }
    ensures kept { IsUpToDate (seen_now graph.new) subscription.new }
    ensures room { HasRoom result.0 subscription.new.region.marks.entries }
    ensures others { KeepsRows subscription.old subscription.new }
{
    let Step { ready, moved } = step;
    let undo = take_over(subscription, moved);
    graph.commit_kept(ready);
    undo
}

// A new subscription to the same search.
fn subscribe_anew(
    alloc: Global,
    graph: &Graph,
    subscription: &Subscription,
) -> Result<Subscription, Fault>
    requires { IsUpToDate (seen_now graph.now) subscription.now }
{
    let search = subscription.search.copy(alloc)?;
    let (other, _found) = subscribe_to(alloc, graph, subscription.region.start, search)?;
    Ok(other)
}

// Whether the marks and the size are those of a new subscription.
pub(crate) fn check_kept(
    alloc: Global,
    graph: &Graph,
    subscription: &Subscription,
) -> Result<(), Fault>
    requires { IsUpToDate (seen_now graph.now) subscription.now }
{
    let other = subscribe_anew(alloc, graph, subscription)?;
    let wanted = take_snapshot(alloc, &other)?;
    fault_unless(is_as_in(&wanted, subscription), Fault::Marks)
}
