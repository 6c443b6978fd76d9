//! Small graphs with random publishes: what each change tells, and its ways back.
ghost use Rattle.std.specs.Prelude.{◌≡◌, IfOk, OnOk};
ghost use Rattle.ifmap_delta.specs.SeenViews.{IsUpToDate};
ghost use Rattle.ifmap_changes.specs.Between.{seen_now};
ghost use Rattle.ifmap_delta_tests.specs.Worlds.{IsQuiet, IsStepOut, KeepsRows};
ghost use Rattle.ifmap_region.specs.Ways.{HasRoom};

use crate::comparing::{Snapshot, has_bare_row, is_as_in, take_snapshot};
use crate::faults::{Fault, fault_unless};
use crate::rolling::{roll_ops, roll_sought};
use crate::sought::search_of;
use crate::stepping::{Step, World, begin_world, check_kept, make_step, step_by};
use ifmap_delta::{Moved, SubUndo, Subscription};
use ifmap_graph::Graph;
use ifmap_publish_tests::dice::Dice;
use ifmap_region::Patch;
use std::alloc::Global;

// The step of a random publish of a client.
fn roll_step(
    alloc: Global,
    dice: &mut Dice,
    graph: &mut Graph,
    subscription: &mut Subscription,
    client: &str,
    count: u64,
) -> Result<Step, Fault>
    requires quiet { IsQuiet graph.old }
    requires kept { IsUpToDate (seen_now graph.old) subscription.old }
    ensures out { IfOk result (λ step. IsStepOut graph.new subscription.new step.ready
        step.moved) }
    ensures others { OnOk result (KeepsRows subscription.old subscription.new) }
{
    let ops = roll_ops(alloc, dice, (count, 10))?;
    step_by(alloc, graph, subscription, client, &ops)
}

// What a change does to a subscription that has not taken it over.
#[derive(Drop)]
struct Later {
    patch: Patch,
    size: u64,
}

fn later_of(step: Step) -> Later
    ensures { result.patch ≡ step.moved.patch }
{
    let Step { moved, .. } = step;
    let Moved {
        patch,
        new_size,
        ..
    } = moved;
    Later {
        patch,
        size: new_size,
    }
}

// The subscription takes a later change over.
fn make_later(subscription: &mut Subscription, later: Later) -> SubUndo
    requires { HasRoom later.patch subscription.old.region.marks.entries }
    ensures room { HasRoom result.0 subscription.new.region.marks.entries }
    ensures others { KeepsRows subscription.old subscription.new }
{
    subscription.commit_kept(later.patch, later.size)
}

// The subscription takes a change back.
fn take_back(subscription: &mut Subscription, undo: SubUndo) -> Patch
    requires { HasRoom undo.0 subscription.old.region.marks.entries }
    ensures room { HasRoom result subscription.new.region.marks.entries }
    ensures others { KeepsRows subscription.old subscription.new }
{
    subscription.undo(undo)
}

// Whether it is as in the snapshot, and no row without a mark is left.
fn check_end(subscription: &Subscription, wanted: &Snapshot) -> Result<(), Fault> {
    fault_unless(is_as_in(wanted, subscription), Fault::Back)?;
    fault_unless(!has_bare_row(&subscription.region), Fault::Rows)
}

// A change is taken back while a later one is out, and both are given up.
fn undo_under(
    subscription: &mut Subscription,
    undo: SubUndo,
    later: Later,
    was: &Snapshot,
) -> Result<(), Fault>
    requires { HasRoom undo.0 subscription.old.region.marks.entries }
{
    let first = take_back(subscription, undo);
    let back = is_as_in(was, subscription);
    subscription.forget(later.patch);
    subscription.forget(first);
    fault_unless(back, Fault::Back)?;
    check_end(subscription, was)
}

// A change is made once more, for good: whether all is as in the snapshot at each moment.
fn is_made_again(subscription: &mut Subscription, first: Patch, now: &Snapshot, size: u64) -> bool
    requires { HasRoom first subscription.old.region.marks.entries }
{
    let undo = subscription.commit_kept(first, size);
    let made = is_as_in(now, subscription);
    subscription.settle(undo);
    made && is_as_in(now, subscription)
}

// The later change is made and taken back, then the earlier one is, and made again.
fn undo_both(
    subscription: &mut Subscription,
    undo: SubUndo,
    later: Later,
    was: &Snapshot,
    now: &Snapshot,
) -> Result<(), Fault>
    requires first { HasRoom undo.0 subscription.old.region.marks.entries }
    requires later { HasRoom later.patch subscription.old.region.marks.entries }
{
    let size = subscription.size;
    let undo_later = make_later(subscription, later);
    let later = take_back(subscription, undo_later);
    let between = is_as_in(now, subscription);
    let first = take_back(subscription, undo);
    let back = is_as_in(was, subscription);
    let again = is_made_again(subscription, first, now, size);
    subscription.forget(later);
    fault_unless(between && back && again, Fault::Back)?;
    check_end(subscription, now)
}

// Both changes are settled.
fn settle_both(
    alloc: Global,
    subscription: &mut Subscription,
    undo: SubUndo,
    later: SubUndo,
) -> Result<(), Fault> {
    let now = take_snapshot(alloc, subscription)?;
    subscription.settle(later);
    subscription.settle(undo);
    check_end(subscription, &now)
}

// The later change is made, and both stay.
fn make_both(
    alloc: Global,
    graph: &mut Graph,
    subscription: &mut Subscription,
    undo: SubUndo,
    step: Step,
) -> Result<(), Fault>
    requires { IsStepOut graph.old subscription.old step.ready step.moved }
{
    let later = make_step(graph, subscription, step);
    check_kept(alloc, graph, subscription)?;
    settle_both(alloc, subscription, undo, later)
}

// Ways to end after two changes, of which the second is not made yet.
#[derive(Clone, Copy)]
enum Ending {
    MakeBoth,
    UndoUnder,
    UndoBoth,
}

fn roll_ending(dice: &mut Dice) -> Ending {
    match dice.roll(3) {
        0 => Ending::MakeBoth,
        1 => Ending::UndoUnder,
        _ => Ending::UndoBoth,
    }
}

// A second change, and one of the ways to end.
fn end_walk(
    alloc: Global,
    dice: &mut Dice,
    graph: &mut Graph,
    subscription: &mut Subscription,
    undo: SubUndo,
    was: &Snapshot,
) -> Result<(), Fault>
    requires quiet { IsQuiet graph.old }
    requires kept { IsUpToDate (seen_now graph.old) subscription.old }
    requires room { HasRoom undo.0 subscription.old.region.marks.entries }
{
    let now = take_snapshot(alloc, subscription)?;
    let step = roll_step(alloc, dice, graph, subscription, "c2", 4)?;
    match roll_ending(dice) {
        Ending::MakeBoth => make_both(alloc, graph, subscription, undo, step),
        Ending::UndoUnder => undo_under(subscription, undo, later_of(step), was),
        Ending::UndoBoth => undo_both(subscription, undo, later_of(step), was, &now),
    }
}

// A first change: its way back. Where it tells something, it is counted.
fn make_first(
    alloc: Global,
    dice: &mut Dice,
    graph: &mut Graph,
    subscription: &mut Subscription,
    count: &mut u64,
) -> Result<SubUndo, Fault>
    requires quiet { IsQuiet graph.old }
    requires kept { IsUpToDate (seen_now graph.old) subscription.old }
    ensures quiet { OnOk result (IsQuiet graph.new) }
    ensures kept { OnOk result (IsUpToDate (seen_now graph.new) subscription.new) }
    ensures room { IfOk result (λ undo. HasRoom undo.0 subscription.new.region.marks.entries) }
{
    let step = roll_step(alloc, dice, graph, subscription, "c1", 3)?;
    if tells_something(&step.moved) {
        *count = count.wrapping_add(1);
    }
    Ok(make_step(graph, subscription, step))
}

fn tells_something(moved: &Moved) -> bool {
    !moved.deleted.is_empty() || !moved.updated.is_empty()
}

// Two changes of a graph with a subscription.
fn change_twice(
    alloc: Global,
    dice: &mut Dice,
    graph: &mut Graph,
    subscription: &mut Subscription,
    count: &mut u64,
) -> Result<(), Fault>
    requires quiet { IsQuiet graph.old }
    requires kept { IsUpToDate (seen_now graph.old) subscription.old }
{
    let was = take_snapshot(alloc, subscription)?;
    let undo = make_first(alloc, dice, graph, subscription, count)?;
    check_kept(alloc, graph, subscription)?;
    end_walk(alloc, dice, graph, subscription, undo, &was)
}

// A graph with a subscription to what it shows.
fn roll_world(alloc: Global, dice: &mut Dice) -> Result<World, Fault>
    ensures quiet { IfOk result (λ world. IsQuiet world.graph) }
    ensures kept { IfOk result (λ world. IsUpToDate (seen_now world.graph) world.subscription) }
{
    let ops = roll_ops(alloc, dice, (14, 6))?;
    let search = search_of(alloc, &roll_sought(dice))?;
    let (world, _found) = begin_world(alloc, search, &ops)?;
    Ok(world)
}

fn walk(alloc: Global, dice: &mut Dice, count: &mut u64) -> Result<(), Fault> {
    let mut world = roll_world(alloc, dice)?;
    change_twice(
        alloc,
        dice,
        &mut world.graph,
        &mut world.subscription,
        count,
    )
}

// What is wrong with the changes from a seed, in words; none where nothing is.
fn fault_from(alloc: Global, seed: u64, count: &mut u64) -> &'static str {
    let mut dice = Dice { state: seed };
    match walk(alloc, &mut dice, count) {
        Ok(()) => "",
        Err(fault) => fault.text(),
    }
}

#[test]
fn changes_tell_what_searches_differ_by(rt: HostRuntime) {
    let alloc = rt.alloc();
    // how many of the changes told something
    let mut count = 0u64;
    for seed in 0u64..300 {
        let fault = fault_from(alloc, seed, &mut count);
        assert!(rt; fault.is_empty(), "{seed}: {fault}");
    }
    assert!(rt; count > 60, "{count}");
}
