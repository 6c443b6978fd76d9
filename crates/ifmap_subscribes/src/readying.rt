//! The operations of a subscribe: they are made ready, from left to right, all or none.
ghost use Rattle.std.specs.Prelude.{◌≡◌, ◌≢◌, ◌≤◌, ◌<◌, ◌+◌, ◌++◌, ◌∷◌, ◌^◌, ℕ, Err, List, [], None, Some, IfOk, IsSome, OnErr, OnOk, false, length, if◌then◌else◌, vec_capacity, vec_len};
ghost use Rattle.std.specs.BTreeMap.{get};
ghost use Rattle.std.specs.Cmp.Lexicographic.{slice_cmp};
ghost use Rattle.std.specs.List.{AllByRecursion};
ghost use Rattle.std.specs.Ordering.{nat_cmp};
ghost use Rattle.ifmap_changes.specs.Between.{IsSoundSoFar};
ghost use Rattle.ifmap_changes.specs.ifmap_graph.Seen.{rows_now};
ghost use Rattle.ifmap_changes.specs.ifmap_machine.Subscribing.{most_names, subscribe_op, subscribe_ops};
ghost use Rattle.ifmap_changes.specs.ifmap_machine.Subscribing as machine;
ghost use Rattle.ifmap_changes.specs.ifmap_requests.Fit.{IsFitSearch, IsFitSubscribeOp};
ghost use Rattle.ifmap_changes.specs.ifmap_requests.declared.requests.SubscribeOp.TheVariants as the_op;
ghost use Rattle.ifmap_subscribes.specs.Bounds.{AreOpsWithin, IsOpWithin, IsWithinSpan};
ghost use Rattle.ifmap_subscribes.specs.Readying.{BeginsName, CanReady, CanReadyFirst, CanReadyUpdate, CanStand, IsAdded, IsGivenUp, IsNoted, IsSmall, MakesReady, OnlyHolds, most_ops, now_of, told_in_scene, told_then};
ghost use Rattle.ifmap_subscribes.specs.Renamings.{IsNameNow};
ghost use Rattle.ifmap_subscribes.specs.declared.readying.SubscribeError.TheVariants as the_error;

use crate::names::{NameNow, count_standing, name_before, whole_size};
use crate::renamings::{Renaming, release_all};
use crate::starting::{NewSubscription, begin_name};
use ifmap_changes::asking::Asking;
use ifmap_changes::parts::Parts;
use ifmap_changes::{Pending, SubscribeOp, same_links_keep_subscriptions};
use ifmap_elem::{Copied, Many, Text};
use ifmap_search::{Search, poll_size};
use ifmap_steps::Steps;
use std::alloc::{AllocError as NoMemory, Global};
use std::collections::BTreeMap;
use std::sync::ledger::Ledger;

// How many subscriptions a session may keep.
const MOST_NAMES: usize = 1000;

// How many operations are made ready at most: more than memory holds.
const MOST_OPS: usize = 1 << 30;

/// Why operations are not made ready.
#[derive(Drop)]
pub enum SubscribeError {
    /// There is no room for a name.
    TooMany,
    /// Want of memory.
    NoMemory,
}

/// Operations that were made ready, with what is so of the session after them.
#[derive(Drop)]
pub struct Readying {
    /// What becomes of each name, in order.
    pub made: Vec<Renaming>,
    /// What is so of each name that was renamed.
    pub names: BTreeMap<Text, NameNow>,
    /// How many subscriptions the session has.
    pub count: usize,
    /// The size of what it is to be told.
    pub size: u128,
}

/// In which session operations are made ready, and where an event stands.
#[derive(Drop)]
pub struct Occasion<'a> {
    /// What is pending.
    pub pending: &'a Pending,
    /// Who asks, and when.
    pub asking: &'a Asking<'a>,
    /// The serial of the session.
    pub serial: u64,
}

/// The operations made ready, from left to right. Where there is no room for a name, or at want of
/// memory, no number is held for them, and all is as it was but for room.
pub fn ready_ops<L: Ledger>(
    alloc: Global,
    parts: &mut Parts,
    scene: &Occasion<'_>,
    ops: &Many<SubscribeOp>,
    steps: &mut Steps<L>,
) -> Result<Readying, SubscribeError>
    requires first { CanReadyFirst scene.now parts.old }
    requires fit { AllByRecursion IsFitSubscribeOp ops.now }
    ensures ops { IfOk result (λ readying. subscribe_ops (rows_now parts.old.graph)
        scene.now.serial ops.now (told_in_scene scene.now parts.old)
        ≡ Some (told_then scene.now parts.old readying)) }
    ensures can { IfOk result (CanReady scene.now parts.new) }
    ensures holds { OnOk result (OnlyHolds parts.old parts.new) }
    ensures full { result ≡ Err the_error.TooMany → subscribe_ops (rows_now parts.old.graph)
        scene.now.serial ops.now (told_in_scene scene.now parts.old) ≡ None }
    ensures given_up { OnErr result (IsGivenUp parts.old parts.new) }
    ensures ready { IsSoundSoFar scene.now.asking.now parts.new scene.now.pending.now }

    // Also at want of memory.
    ensures steps { AreOpsWithin (rows_now parts.old.graph) ops.now steps.old steps.new }
{
    let mut readying = nothing_ready(alloc, parts, scene);
    match ready_all(alloc, parts, scene, ops, &mut readying, steps) {
        Ok(()) => Ok(readying),
        Err(error) => {
            give_up(parts, scene, readying);
            Err(error)
        }
    }
}

// No operation is made ready yet.
fn nothing_ready(alloc: Global, parts: &Parts, scene: &Occasion<'_>) -> Readying
    requires { CanReadyFirst scene.now parts.now }
    ensures none { result.made.items ≡ [] }
    ensures can { CanReady scene.now parts.now result }
{
    Readying {
        made: Vec::new(alloc),
        names: BTreeMap::new(alloc),
        count: count_standing(&parts.standing, &scene.pending.gone, scene.serial),
        size: whole_size(&parts.sessions, &scene.pending.tellings, scene.serial) as u128,
    }
}

// What was made ready is given up: the numbers that are held for it are let go of. It takes no
// memory.
fn give_up(parts: &mut Parts, scene: &Occasion<'_>, readying: Readying)
    requires { CanReady scene.now parts.old readying }
    ensures given_up { IsGivenUp parts.old parts.new }
    ensures ready { IsSoundSoFar scene.now.asking.now parts.new scene.now.pending.now }
{
    let Readying { made, .. } = readying;
    release_all(&mut parts.graph, Many(made));
}

// Each operation in turn. Where one is not, the first are ready still.
fn ready_all<L: Ledger>(
    alloc: Global,
    parts: &mut Parts,
    scene: &Occasion<'_>,
    ops: &Many<SubscribeOp>,
    readying: &mut Readying,
    steps: &mut Steps<L>,
) -> Result<(), SubscribeError>
    requires can { CanReady scene.now parts.old readying.old }
    requires fit { AllByRecursion IsFitSubscribeOp ops.now }
    ensures makes { MakesReady result
        (subscribe_ops (rows_now parts.old.graph) scene.now.serial ops.now) scene.now parts.old
        parts.new readying.old readying.new }
    ensures steps { AreOpsWithin (rows_now parts.old.graph) ops.now steps.old steps.new }
{
    for op in ops.as_slice() {
        ready_op(alloc, parts, scene, op, readying, steps)?;
    }
    Ok(())
}

// One operation.
fn ready_op<L: Ledger>(
    alloc: Global,
    parts: &mut Parts,
    scene: &Occasion<'_>,
    op: &SubscribeOp,
    readying: &mut Readying,
    steps: &mut Steps<L>,
) -> Result<(), SubscribeError>
    requires can { CanReady scene.now parts.old readying.old }
    requires fit { IsFitSubscribeOp op.now }
    ensures makes { MakesReady result
        (subscribe_op (rows_now parts.old.graph) scene.now.serial op.now) scene.now parts.old
        parts.new readying.old readying.new }
    ensures steps { IsOpWithin (rows_now parts.old.graph) op.now steps.old steps.new }
{
    match op {
        SubscribeOp::Update { name, search } => {
            let before = name_now(parts, scene, name, readying);
            let wish = Wish {
                name,
                search,
                before,
            };
            ready_update(alloc, parts, scene, &wish, readying, steps)
        }
        SubscribeOp::Delete { name } => match ready_delete(alloc, parts, scene, name, readying) {
            Ok(()) => Ok(()),
            Err(_) => Err(SubscribeError::NoMemory),
        },
    }
}

// A subscription that is asked for: its name, with what is so of it before, and its search.
#[derive(Drop)]
struct Wish<'a> {
    name: &'a Text,
    search: &'a Search,
    before: NameNow,
}

// A subscription of a name to a search, where there is room for it.
fn ready_update<L: Ledger>(
    alloc: Global,
    parts: &mut Parts,
    scene: &Occasion<'_>,
    wish: &Wish<'_>,
    readying: &mut Readying,
    steps: &mut Steps<L>,
) -> Result<(), SubscribeError>
    requires { CanReadyUpdate scene.now parts.old readying.old wish.now.name.now
        wish.now.search.now wish.now.before }
    ensures makes { MakesReady result (subscribe_op (rows_now parts.old.graph) scene.now.serial
        (the_op.Update wish.now.name.now wish.now.search.now)) scene.now parts.old parts.new
        readying.old readying.new }
    ensures steps { IsWithinSpan 4 (rows_now parts.old.graph) wish.now.search.now steps.old
        steps.new }
{
    if !wish.before.stands && MOST_NAMES <= readying.count {
        return Err(SubscribeError::TooMany);
    }
    match begin_ready(alloc, parts, scene, wish, readying, steps) {
        Ok(()) => Ok(()),
        Err(_) => Err(SubscribeError::NoMemory),
    }
}

// What is so of a name, after what was made ready.
fn name_now(parts: &Parts, scene: &Occasion<'_>, name: &Text, readying: &Readying) -> NameNow
    requires { CanReady scene.now parts.now readying.now }
    ensures { IsNameNow scene.now.serial name.now (told_then scene.now parts.now readying.now)
        result }
{
    match readying.names.get(name) {
        Some(now) => *now,
        None => name_before(parts, scene.pending, scene.asking, scene.serial, name),
    }
}

// The subscription of a name ends.
fn ready_delete(
    alloc: Global,
    parts: &Parts,
    scene: &Occasion<'_>,
    name: &Text,
    readying: &mut Readying,
) -> Result<(), NoMemory>
    requires can { CanReady scene.now parts.now readying.old }
    ensures op { OnOk result (machine.drop_name scene.now.serial name.now
        (told_then scene.now parts.now readying.old)
        ≡ told_then scene.now parts.now readying.new) }
    ensures can { CanReady scene.now parts.now readying.new }
{
    let now = name_now(parts, scene, name, readying);
    let own_name = name.copy(alloc)?;
    make_room(readying, name.copy(alloc)?, now)?;
    let renaming = Renaming {
        name: own_name,
        item: None,
        standing: None,
    };
    add_renaming(readying, now, renaming);
    Ok(())
}

// A subscription begins, for which there is room.
fn begin_ready<L: Ledger>(
    alloc: Global,
    parts: &mut Parts,
    scene: &Occasion<'_>,
    wish: &Wish<'_>,
    readying: &mut Readying,
    steps: &mut Steps<L>,
) -> Result<(), NoMemory>
    requires update { CanReadyUpdate scene.now parts.old readying.old wish.now.name.now
        wish.now.search.now wish.now.before }
    requires room { machine.is_full_for scene.now.serial wish.now.name.now
        (told_then scene.now parts.old readying.old).standing ≡ false }
    ensures op { OnOk result (machine.begin_name (rows_now parts.old.graph) scene.now.serial
        wish.now.name.now wish.now.search.now (machine.drop_name scene.now.serial
        wish.now.name.now (told_then scene.now parts.old readying.old))
        ≡ told_then scene.now parts.old readying.new) }
    ensures can { CanReady scene.now parts.new readying.new }
    ensures holds { OnlyHolds parts.old parts.new }
    ensures steps { IsWithinSpan 4 (rows_now parts.old.graph) wish.now.search.now steps.old
        steps.new }
{
    make_room(readying, wish.name.copy(alloc)?, wish.before)?;
    let renaming = begin_beside(alloc, parts, scene, wish, &readying.made, steps)?;
    add_renaming(readying, wish.before, renaming);
    Ok(())
}

// A subscription begins that nothing is told of yet, beside those that are ready.
fn begin_beside<L: Ledger>(
    alloc: Global,
    parts: &mut Parts,
    scene: &Occasion<'_>,
    wish: &Wish<'_>,
    made: &[Renaming],
    steps: &mut Steps<L>,
) -> Result<Renaming, NoMemory>
    requires ready { IsSoundSoFar scene.now.asking.now parts.old scene.now.pending.now }
    requires stand { CanStand scene.now.serial parts.old made.now }
    requires most { length made.now ≤ most_ops }
    requires fit { IsFitSearch wish.now.search.now }
    ensures begins { IfOk result (BeginsName (rows_now parts.old.graph) scene.now.serial
        wish.now.name.now wish.now.search.now) }
    ensures stand { IfOk result (λ renaming. CanStand scene.now.serial parts.new
        (made.now ++ renaming ∷ [])) }
    ensures err { OnErr result (CanStand scene.now.serial parts.new made.now) }
    ensures ready { IsSoundSoFar scene.now.asking.now parts.new scene.now.pending.now }
    ensures holds { OnlyHolds parts.old parts.new }
    ensures steps { IsWithinSpan 4 (rows_now parts.old.graph) wish.now.search.now steps.old
        steps.new }
{
    same_links_keep_subscriptions();
    parts.sessions.is_table();
    parts.graph.is_view();
    let wanted = NewSubscription {
        serial: scene.serial,
        name: wish.name,
        search: wish.search,
    };
    let begun = begin_name(alloc, &mut parts.graph, &wanted, steps);
    parts.graph.is_view();
    begun
}

// Room for one renaming more, and for what is so of its name.
fn make_room(readying: &mut Readying, name: Text, now: NameNow) -> Result<(), NoMemory>
    ensures noted { IsNoted name now readying.old readying.new }
    ensures name { OnOk result (get (slice_cmp nat_cmp) readying.new.names name ≡ Some now) }
    ensures room { OnOk result (vec_len readying.new.made + 1 ≤ vec_capacity readying.new.made) }
    ensures few { OnOk result (length readying.new.made.items < most_ops) }
{
    if MOST_OPS <= readying.made.len() {
        return Err(NoMemory);
    }
    readying.made.reserve(1)?;
    readying.names.insert(name, now)?;
    Ok(())
}

// One renaming more, for which there is room; `now` is what is so of its name before it. It takes
// no memory.
fn add_renaming(readying: &mut Readying, now: NameNow, renaming: Renaming)
    requires room { vec_len readying.old.made + 1 ≤ vec_capacity readying.old.made }
    requires small { IsSmall renaming }
    requires name { get (slice_cmp nat_cmp) readying.old.names renaming.name ≡ Some now }
    requires count { (if now.stands then 1 else 0) ≤ readying.old.count }
    requires few { readying.old.count ≤ most_names }
    requires size { now.size ≤ readying.old.size }
    requires narrow { readying.old.size < 2 ^ 127 }
    ensures { IsAdded now renaming readying.old readying.new }
{
    let after = now_of(&renaming);
    readying.count = readying.count - now.stands as usize + after.stands as usize;
    readying.size = readying.size - now.size + after.size;
    set_name(&mut readying.names, &renaming.name, after);
    readying.made.push_reserved(renaming);
}

// What is so of a name after its renaming.
fn now_of(renaming: &Renaming) -> NameNow
    requires { IsSmall renaming.now }
    ensures { result ≡ now_of renaming.now }
{
    NameNow {
        stands: renaming.standing.is_some(),
        size: match &renaming.item {
            Some(item) => poll_size(item) as u128,
            None => 0,
        },
    }
}

// What is so of a name that is kept is another. It takes no memory.
fn set_name(names: &mut BTreeMap<Text, NameNow>, name: &Text, now: NameNow)
    requires { IsSome (get (slice_cmp nat_cmp) names.old name.now) }
    ensures name { get (slice_cmp nat_cmp) names.new name.now ≡ Some now }
    ensures others { (other : List ℕ) → other ≢ name.now
        → get (slice_cmp nat_cmp) names.new other ≡ get (slice_cmp nat_cmp) names.old other }
{
    if let Some(kept) = names.get_mut(name) {
        *kept = now;
    }
}
