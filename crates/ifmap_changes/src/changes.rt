//! Changes of the graph, with all that the sessions are to be told of them.
ghost use Rattle.std.specs.Prelude.{◌≡◌, ◌≢◌, ◌<◌, ◌≤◌, ◌==◌, ◌∷◌, ◌++◌, true, false, [], List, IfOk, OnErr, OnOk, if◌then◌else◌, length, map, set, slice_get, vec_capacity, vec_len};
ghost use Rattle.std.specs.List.{AllByRecursion, list_any, zip};
ghost use Rattle.std.specs.List.Sorted.{IsStrictlySortedBy};
ghost use Rattle.std.specs.Ordering.{nat_cmp};
ghost use Rattle.ifmap_changes.specs.Between.{AreBack, AreChanged, AreKept, AreOrdered, AreParts, Asking, IsSoundSoFar, IsSteady, seen_now, state_now};
ghost use Rattle.ifmap_changes.specs.Bounds.{IsPlanWithin};
ghost use Rattle.ifmap_changes.specs.Changes.{CanMakeChange, CanSettle, CanTakeBack, FlagsSessions, HasWaysBack, IsBegun, IsSettled, IsTold, KeepsSearches, TellsPlanOrKeeps, flags_with, seen_next};
ghost use Rattle.ifmap_changes.specs.declared.parts.Parts.{Parts};
ghost use Rattle.ifmap_tellings.specs.declared.tellings.Pending.{Pending};
ghost use Rattle.ifmap_tellings.specs.Tellings.{AllKept, HasSameSessions};
ghost use Rattle.ifmap_tellings.specs.ifmap_delta.Changes.{ShowsAfter};
ghost use Rattle.ifmap_tellings.specs.ifmap_delta.SeenViews.{IsUpToDate};
ghost use Rattle.ifmap_ident.specs.Items.{IsCanonItem};
ghost use Rattle.ifmap_graph.specs.ifmap_plans.Plans.{Fits};
ghost use Rattle.ifmap_tellings.specs.ifmap_standing.Bounds.{IsWithinEach};
ghost use Rattle.ifmap_tellings.specs.ifmap_standing.Kept.{AtEach, KeepsSame, StaysRelated};
ghost use Rattle.ifmap_tellings.specs.ifmap_standing.declared.standing.Standing.{Standing};
ghost use Rattle.ifmap_tellings.specs.ifmap_standing.News.{news_of_each};
ghost use Rattle.ifmap_tellings.specs.ifmap_standing.Standing.{standing_of};
ghost use Rattle.ifmap_tellings.specs.ifmap_standing.Ways.{LeadBack};
ghost use Rattle.ifmap_tellings.specs.ifmap_standing.Ways as the_ways;
ghost use Rattle.ifmap_graph.specs.Out.{items_changed};
ghost use Rattle.ifmap_graph.specs.Seen.{AwaitsLess, StaysLeanWithout, rows_next, rows_now};

use crate::asking::Asking;
use crate::parts::Parts;
use ifmap_graph::{Draft, Plan, Ready, Undo};
use ifmap_ident::laws::bytes_tell_identifiers_apart;
use ifmap_steps::Steps;
use ifmap_tellings::tellings::{Pending, queue_news};
use ifmap_tellings::{
    GraphChange, NewsAndWays, Standing, Ways, same_links_keep_subscriptions,
    same_marks_keep_subscriptions, settle, take_change_back, tell_change,
};
use std::alloc::{AllocError as NoMemory, Global};
use std::sync::ledger::Ledger;

/// A change that was made, with its ways back: of the graph, and of the subscriptions.
#[derive(Drop)]
pub struct Made {
    /// That of the graph.
    pub undo: Undo,
    /// Those of the subscriptions.
    pub ways: Ways,
}

/// Makes a change, for good. After want of memory nothing is made.
pub fn make_change<L: Ledger>(
    alloc: Global,
    parts: &mut Parts,
    pending: &mut Pending,
    asking: &Asking,
    plan: Plan,
    steps: &mut Steps<L>,
) -> Result<(), NoMemory>
    requires can { CanMakeChange plan asking.now parts.old pending.old }
    ensures tells { TellsPlanOrKeeps result plan asking.now parts.old pending.old parts.new
        pending.new }
    ensures changed { OnOk result (AreChanged asking.now parts.old parts.new pending.new) }

    // Also at want of memory.
    ensures steps { IsPlanWithin plan (state_now asking.now parts.old pending.old) steps.old
        steps.new }
{
    let made = make_kept(alloc, parts, pending, asking, plan, steps)?;
    settle_made(parts, made);
    Ok(())
}

/// Makes a change, so that it can be taken back. After want of memory nothing is made.
pub fn make_kept<L: Ledger>(
    alloc: Global,
    parts: &mut Parts,
    pending: &mut Pending,
    asking: &Asking,
    plan: Plan,
    steps: &mut Steps<L>,
) -> Result<Made, NoMemory>
    requires can { CanMakeChange plan asking.now parts.old pending.old }
    ensures tells { TellsPlanOrKeeps result plan asking.now parts.old pending.old parts.new
        pending.new }
    ensures ways { IfOk result (HasWaysBack asking.now parts.old parts.new pending.new) }

    // Also at want of memory.
    ensures steps { IsPlanWithin plan (state_now asking.now parts.old pending.old) steps.old
        steps.new }
{
    bytes_tell_identifiers_apart();
    same_links_keep_subscriptions();
    let ready = begin_change(alloc, parts, plan)?;
    match tell_parts(alloc, parts, pending, asking, &ready.plan, steps) {
        Ok(ways) => {
            let undo = parts.graph.commit_kept(ready);
            Ok(Made { undo, ways })
        }
        Err(no_memory) => {
            parts.graph.forget(ready);
            Err(no_memory)
        }
    }
}

// A change of the graph comes to be out. After want of memory all is as it was but for room.
fn begin_change(alloc: Global, parts: &mut Parts, plan: Plan) -> Result<Ready, NoMemory>
    requires steady { IsSteady parts.old.graph parts.old.standing.items }
    requires ordered { AreOrdered parts.old.sessions.live parts.old.standing.items }
    requires fits { Fits (rows_now parts.old.graph) plan.changes }
    ensures begun { IfOk result (λ ready. IsBegun ready plan parts.old.graph parts.new.graph) }
    ensures sessions { parts.new.sessions ≡ parts.old.sessions }
    ensures standing { parts.new.standing ≡ parts.old.standing }
    ensures kept { OnErr result (AreKept parts.old parts.new) }
{
    parts.sessions.is_table();
    parts.graph.is_view();
    let ready = parts.graph.reserve(alloc, plan)?;
    parts.graph.is_view();
    Draft::of(&parts.graph).is_view();
    Ok(ready)
}

// Tells the subscriptions of a change that is out, and queues their news. After want of memory each
// keeps what it kept.
fn tell_parts<L: Ledger>(
    alloc: Global,
    parts: &mut Parts,
    pending: &mut Pending,
    asking: &Asking,
    plan: &Plan,
    steps: &mut Steps<L>,
) -> Result<Ways, NoMemory>
    requires ready { IsSoundSoFar asking.now parts.old pending.old }
    requires change { ShowsAfter (seen_now parts.old.graph) (seen_next parts.old.graph)
        plan.now.changes }
    requires canon { AllByRecursion (λ n. IsCanonItem n.item) plan.now.notes }
    ensures told { OnOk result (IsTold asking.now parts.old pending.old plan.now.notes parts.new
        pending.new) }
    ensures ways { IfOk result (λ ways. LeadBack parts.old.standing.items ways
        parts.new.standing.items) }
    ensures keeps { KeepsSearches result parts.old parts.new }
    ensures sessions { HasSameSessions parts.old.sessions parts.new.sessions }
    ensures steps { IsWithinEach (seen_now parts.old.graph) (seen_next parts.old.graph)
        (zip pending.old.gone.items parts.old.standing.items) steps.old steps.new }
{
    let told = tell_standing(alloc, parts, &pending.gone, plan, steps)?;
    let NewsAndWays { news, ways } = told;
    match queue_news(alloc, &mut parts.sessions, &parts.standing, news, pending) {
        Ok(()) => Ok(ways),
        Err(no_memory) => {
            take_back_all(&mut parts.standing, ways);
            Err(no_memory)
        }
    }
}

// Tells each subscription that is not gone.
fn tell_standing<L: Ledger>(
    alloc: Global,
    parts: &mut Parts,
    gone: &[bool],
    plan: &Plan,
    steps: &mut Steps<L>,
) -> Result<NewsAndWays, NoMemory>
    requires flags { length gone.now ≡ length parts.old.standing.items }
    requires kept { AllKept (λ x. IsUpToDate (seen_now parts.old.graph) x.subscription) gone.now
        parts.old.standing.items }
    requires change { ShowsAfter (seen_now parts.old.graph) (seen_next parts.old.graph)
        plan.now.changes }
    requires canon { AllByRecursion (λ n. IsCanonItem n.item) plan.now.notes }
    ensures keeps { KeepsSearches result parts.old parts.new }
    ensures sessions { parts.new.sessions ≡ parts.old.sessions }
    ensures news { IfOk result (λ told. told.news ≡ news_of_each (rows_now parts.old.graph)
        (rows_next parts.old.graph) plan.now.notes gone.now
        (map standing_of parts.old.standing.items)) }
    ensures kept { OnOk result
        (AllKept (λ x. IsUpToDate (seen_next parts.old.graph) x.subscription)
        gone.now parts.new.standing.items) }
    ensures ways { IfOk result (λ told. LeadBack parts.old.standing.items told.ways
        parts.new.standing.items) }
    ensures steps { IsWithinEach (seen_now parts.old.graph) (seen_next parts.old.graph)
        (zip gone.now parts.old.standing.items) steps.old steps.new }
{
    let draft = Draft::of(&parts.graph);
    let change = GraphChange {
        graph: &parts.graph,
        draft: &draft,
        plan,
    };
    tell_change(alloc, &mut parts.standing, gone, &change, steps)
}

// Subscriptions take a change back.
fn take_back_all(standing: &mut Vec<Standing>, ways: Ways)
    requires { (before : List Standing) × LeadBack before ways standing.old.items }
    ensures { (before : List Standing) → LeadBack before ways standing.old.items
        → AtEach (λ _. StaysRelated KeepsSame) before standing.new.items }
{
    take_change_back(standing, ways);
}

/// A change stays as it is, for good, while some subscriptions are still to stand, whose starts are
/// held. It takes no memory.
pub fn settle_made(parts: &mut Parts, made: Made)
    requires steady { (more : List Standing)
        × IsSteady parts.old.graph (parts.old.standing.items ++ more) }
    requires can { CanSettle made parts.old }
    ensures steady { (more : List Standing)
        → IsSteady parts.old.graph (parts.old.standing.items ++ more)
        → IsSteady parts.new.graph (parts.new.standing.items ++ more) }
    ensures settled { IsSettled parts.old parts.new }
    ensures ready { (asking : Asking) (pending : Pending) → IsSoundSoFar asking parts.old pending
        → IsSoundSoFar asking parts.new pending }
    ensures state_now { (asking : Asking) (pending : Pending) → state_now asking parts.new pending
        ≡ state_now asking parts.old pending }
    ensures waits { AwaitsLess (items_changed made.undo.plan.changes) parts.old.graph
        parts.new.graph }
    ensures lean { StaysLeanWithout (items_changed made.undo.plan.changes) parts.old.graph
        parts.new.graph }
{
    bytes_tell_identifiers_apart();
    same_links_keep_subscriptions();
    same_marks_keep_subscriptions();
    parts.graph.is_view();
    let Made { undo, ways } = made;
    let _plan = parts.graph.settle(undo);
    parts.graph.is_view();
    settle_all(&mut parts.standing, ways);
}

// Subscriptions leave a change as it is.
fn settle_all(standing: &mut Vec<Standing>, ways: Ways)
    requires { length ways ≤ length standing.old.items }
    ensures settled { AtEach (λ i. StaysRelated (the_ways.IsWayGivenUp (slice_get ways i)))
        standing.old.items standing.new.items }
    ensures len { vec_len standing.new ≡ vec_len standing.old }
    ensures capacity { vec_capacity standing.new ≡ vec_capacity standing.old }
{
    settle(standing, ways);
}

/// A change is taken back: all is again what it was before. It takes no memory.
pub fn undo_made(parts: &mut Parts, made: Made)
    requires steady { IsSteady parts.old.graph parts.old.standing.items }
    requires back { (before : Parts) × CanTakeBack made before parts.old }
    ensures back { (before : Parts) → AreParts before → CanTakeBack made before parts.old
        → AreBack before parts.new }
{
    bytes_tell_identifiers_apart();
    parts.graph.is_view();
    let Made { undo, ways } = made;
    take_back_all(&mut parts.standing, ways);
    parts.graph.undo(undo);
}

/// The subscriptions of these sessions are gone, whose serials rise. It takes no memory.
pub fn flag_sessions(standing: &[Standing], pending: &mut Pending, serials: &[u64])
    requires flags { length pending.old.gone.items ≡ length standing.now }
    requires rising { IsStrictlySortedBy nat_cmp serials.now }
    ensures flags { FlagsSessions serials.now standing.now pending.old pending.new }
    ensures bare { AllKept (λ x. list_any (λ n. n == x.serial) serials.now ≡ false)
        pending.new.gone.items standing.now }
{
    set_flags(standing, &mut pending.gone, serials);
}

// The flags of the subscriptions of these sessions are set.
fn set_flags(standing: &[Standing], gone: &mut Vec<bool>, serials: &[u64])
    requires flags { length gone.old.items ≡ length standing.now }
    requires rising { IsStrictlySortedBy nat_cmp serials.now }
    ensures { gone.new.items ≡ flags_with serials.now gone.old.items standing.now }
{
    for at in 0..standing.len() {
        set_flag(gone, at, is_among(serials, standing[at].serial));
    }
}

// Whether a serial is one of these, which rise.
fn is_among(serials: &[u64], serial: u64) -> bool
    requires { IsStrictlySortedBy nat_cmp serials.now }
    ensures { result ≡ list_any (λ n. n == serial) serials.now }
{
    serials.binary_search(&serial).is_ok()
}

// A flag is set, where it is to be.
fn set_flag(flags: &mut Vec<bool>, at: usize, is_to_be: bool)
    requires { at < length flags.old.items }
    ensures { flags.new.items ≡ (if is_to_be then set flags.old.items at true
        else flags.old.items) }
{
    if is_to_be {
        flags[at] = true;
    }
}

/// The subscriptions of one session are gone. It takes no memory.
pub fn flag_session(standing: &[Standing], pending: &mut Pending, serial: u64)
    requires flags { length pending.old.gone.items ≡ length standing.now }
    ensures flags { FlagsSessions (serial ∷ []) standing.now pending.old pending.new }
    ensures bare { AllKept (λ x. x.serial ≢ serial) pending.new.gone.items standing.now }
{
    flag_sessions(standing, pending, &[serial]);
}
