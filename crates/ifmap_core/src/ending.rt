//! An event is answered, after the sessions ended that are expired at its moment.
ghost use Rattle.std.specs.Prelude.{◌≡◌, true, false, IfOk, IsOk, OnErr, OnOk};
ghost use Rattle.std.specs.List.{list_any};
ghost use Rattle.std.specs.List.Sorted.{IsStrictlySortedBy};
ghost use Rattle.std.specs.Ordering.{nat_cmp};
ghost use Rattle.ifmap_subscribes.specs.ifmap_changes.Between.{AreBack, AreParts, CanEnd, IsSoundSoFar, state_now, state_at};
ghost use Rattle.ifmap_subscribes.specs.ifmap_changes.Changes.{CanSettle, CanTakeBack};
ghost use Rattle.ifmap_subscribes.specs.ifmap_changes.declared.parts.Parts.{Parts};
ghost use Rattle.ifmap_core.specs.Answering.{CanAnswer};
ghost use Rattle.ifmap_core.specs.Bounds.{IsAnsweredWithin, IsEventWithin};
ghost use Rattle.ifmap_core.specs.Ending.{AnswersEvent, state_when};
ghost use Rattle.ifmap_core.specs.Light.{IsLight};
ghost use Rattle.ifmap_core.specs.Completions.{CanFinish};
ghost use Rattle.ifmap_subscribes.specs.ifmap_graph.Out.{items_changed};
ghost use Rattle.ifmap_subscribes.specs.ifmap_graph.Seen.{KeepsNumbers, StaysLean, StaysLeanWithout};
ghost use Rattle.ifmap_subscribes.specs.ifmap_machine.Ending.{drop_sessions, expire};
ghost use Rattle.ifmap_subscribes.specs.ifmap_machine.Step.{step_ask};
ghost use Rattle.ifmap_session.specs.Sessions.{is_expired};

use crate::answering::answer;
use crate::completions::{Completion, apply_completion, finish};
use crate::light::light_completion;
use ifmap_elem::Copied;
use ifmap_io::Moment;
use ifmap_steps::Steps;
use ifmap_subscribes::{
    Answer, Asking, Event, Made, Parts, Pending, Who, flag_sessions, nothing_pending,
    same_links_keep_subscriptions, settle_made, take_away_kept, undo_made, ways_stay,
    what_is_back_is_sound,
};
use std::alloc::{AllocError as NoMemory, Global};
use std::sync::ledger::Ledger;

// What the time is, and after how many seconds sessions are expired.
#[derive(Drop)]
pub(crate) struct Time {
    pub ttl: u32,
    pub moment: Moment,
}

// Answers an event at a moment. The one error is want of memory, after which all is as before.
pub(crate) fn answer_at<L: Ledger>(
    alloc: Global,
    parts: &mut Parts,
    time: &Time,
    event: &Event,
    steps: &mut Steps<L>,
) -> Result<Answer, NoMemory>
    requires { AreParts parts.old }
    ensures answer { IfOk result (λ answer.
        (state_at time.now.ttl time.now.moment parts.new, answer)
        ≡ step_ask (expire (state_at time.now.ttl time.now.moment parts.old)) event.now
        event.now.ask) }
    ensures kept { OnErr result (AreBack parts.old parts.new) }
    ensures parts { AreParts parts.new }
    ensures lean { StaysLean parts.old.graph parts.new.graph }
    ensures light { list_any (is_expired time.now.moment time.now.ttl) parts.old.sessions.live
        ≡ false → IsLight parts.old.sessions.live event.now → IsOk result }
    ensures steps { IsEventWithin (state_at time.now.ttl time.now.moment parts.old) event.now
        steps.old steps.new }
{
    what_is_back_is_sound();
    parts.graph.is_view();
    match answer_once(alloc, parts, time, event, steps) {
        Ok(answer) => Ok(answer),
        Err(no_memory) => {
            parts.graph.is_view();
            Err(no_memory)
        }
    }
}

// The same, but that the parts are sound after an error, which follows from that they are back.
fn answer_once<L: Ledger>(
    alloc: Global,
    parts: &mut Parts,
    time: &Time,
    event: &Event,
    steps: &mut Steps<L>,
) -> Result<Answer, NoMemory>
    requires { AreParts parts.old }
    ensures answers { AnswersEvent result time.now (expire (state_when time.now parts.old))
        event.now parts.old parts.new }
    ensures light { list_any (is_expired time.now.moment time.now.ttl) parts.old.sessions.live
        ≡ false → IsLight parts.old.sessions.live event.now → IsOk result }
    ensures steps { IsEventWithin (state_when time.now parts.old) event.now steps.old steps.new }
{
    if parts.sessions.any_expired(time.moment, time.ttl) {
        return end_and_answer(alloc, parts, time, event, steps);
    }
    answer_all(alloc, parts, time, event, steps)
}

// The same, where no session is expired.
fn answer_all<L: Ledger>(
    alloc: Global,
    parts: &mut Parts,
    time: &Time,
    event: &Event,
    steps: &mut Steps<L>,
) -> Result<Answer, NoMemory>
    requires { AreParts parts.old }
    ensures answers { AnswersEvent result time.now (state_when time.now parts.old) event.now
        parts.old parts.new }
    ensures light { IsLight parts.old.sessions.live event.now → IsOk result }
    ensures steps { IsAnsweredWithin (state_when time.now parts.old) event.now steps.old steps.new }
{
    match light_completion(&parts.sessions, event) {
        Some(completion) => Ok(apply_completion(parts, time.moment, completion)),
        None => answer_pending(alloc, parts, time, event, steps),
    }
}

// The same, with what is pending of it.
fn answer_pending<L: Ledger>(
    alloc: Global,
    parts: &mut Parts,
    time: &Time,
    event: &Event,
    steps: &mut Steps<L>,
) -> Result<Answer, NoMemory>
    requires { AreParts parts.old }
    ensures answers { AnswersEvent result time.now (state_when time.now parts.old) event.now
        parts.old parts.new }
    ensures steps { IsAnsweredWithin (state_when time.now parts.old) event.now steps.old steps.new }
{
    let asking = Asking {
        client: &event.client,
        moment: time.moment,
        ttl: time.ttl,
        ended: &[],
    };
    let mut pending = pending_without(alloc, parts, &asking)?;
    let completion = answer(alloc, parts, &mut pending, &asking, event, steps)?;
    Ok(finish(parts, pending, &asking, completion))
}

// What is pending before an event is answered: the subscriptions of the sessions that have expired are
// gone.
fn pending_without(alloc: Global, parts: &Parts, asking: &Asking) -> Result<Pending, NoMemory>
    requires parts { AreParts parts.now }
    requires ended { CanEnd asking.now.ended parts.now.sessions.live }
    requires rising { IsStrictlySortedBy nat_cmp asking.now.ended }
    ensures ready { IfOk result (IsSoundSoFar asking.now parts.now) }
    ensures state_now { IfOk result (λ pending. state_now asking.now parts.now pending
        ≡ drop_sessions asking.now.ended (state_at asking.now.ttl asking.now.moment parts.now)) }
{
    let mut pending = nothing_pending(alloc, parts.standing.len())?;
    flag_sessions(&parts.standing, &mut pending, asking.ended);
    Ok(pending)
}

// The same, where some are.
fn end_and_answer<L: Ledger>(
    alloc: Global,
    parts: &mut Parts,
    time: &Time,
    event: &Event,
    steps: &mut Steps<L>,
) -> Result<Answer, NoMemory>
    requires parts { AreParts parts.old }
    requires some { list_any (is_expired time.now.moment time.now.ttl) parts.old.sessions.live
        ≡ true }
    ensures answers { AnswersEvent result time.now (expire (state_when time.now parts.old))
        event.now parts.old parts.new }
    ensures steps { IsEventWithin (state_when time.now parts.old) event.now steps.old steps.new }
{
    parts.sessions.is_table();
    let serials = parts.sessions.expired(alloc, time.moment, time.ttl)?;
    let who = Who::Sessions(serials.copy(alloc)?);
    let asking = Asking {
        client: &event.client,
        moment: time.moment,
        ttl: time.ttl,
        ended: serials.as_slice(),
    };
    let mut pending = pending_without(alloc, parts, &asking)?;
    let made = take_away_kept(alloc, parts, &mut pending, &asking, &who, steps)?;
    let ending = Expiry { pending, made };
    answer_ended(alloc, parts, ending, &asking, event, steps)
}

// What is pending once sessions have expired, and the change of the graph that was made of it.
#[derive(Drop)]
struct Expiry {
    pending: Pending,
    made: Made,
}

// Answers an event, once sessions have ended. After want of memory their ends are taken back.
fn answer_ended<L: Ledger>(
    alloc: Global,
    parts: &mut Parts,
    ending: Expiry,
    asking: &Asking,
    event: &Event,
    steps: &mut Steps<L>,
) -> Result<Answer, NoMemory>
    requires can { CanAnswer asking.now parts.old ending.pending }
    requires settle { CanSettle ending.made parts.old }
    requires back { (before : Parts) × AreParts before
        × KeepsNumbers before.graph parts.old.graph × CanTakeBack ending.made before parts.old }
    requires client { asking.now.client ≡ event.now.client }
    ensures answer { IfOk result (λ answer.
        (state_at asking.now.ttl asking.now.moment parts.new, answer)
        ≡ step_ask (state_now asking.now parts.old ending.pending) event.now event.now.ask) }
    ensures kept { OnErr result ((before : Parts) → AreParts before
        → KeepsNumbers before.graph parts.old.graph → CanTakeBack ending.made before parts.old
        → AreBack before parts.new) }
    ensures parts { OnOk result (AreParts parts.new) }
    ensures steps { IsAnsweredWithin (state_now asking.now parts.old ending.pending) event.now
        steps.old steps.new }
    ensures lean { OnOk result ((before : Parts) → CanTakeBack ending.made before parts.old
        → StaysLean before.graph parts.new.graph) }
{
    ways_stay();
    let Expiry { mut pending, made } = ending;
    match answer(alloc, parts, &mut pending, asking, event, steps) {
        Ok(completion) => {
            settle_ended(parts, &pending, asking, made, &completion);
            Ok(finish(parts, pending, asking, completion))
        }
        Err(no_memory) => {
            undo_made(parts, made);
            Err(no_memory)
        }
    }
}

// The change that the ends of sessions made stays. It takes no memory.
fn settle_ended(
    parts: &mut Parts,
    pending: &Pending,
    asking: &Asking,
    made: Made,
    completion: &Completion,
)
    requires can { CanFinish completion.now asking.now parts.old pending.now }
    requires settle { CanSettle made parts.old }
    ensures can { CanFinish completion.now asking.now parts.new pending.now }
    ensures state_now { state_now asking.now parts.new pending.now
        ≡ state_now asking.now parts.old pending.now }
    ensures lean { StaysLeanWithout (items_changed made.undo.plan.changes) parts.old.graph
        parts.new.graph }
{
    same_links_keep_subscriptions();
    parts.graph.is_view();
    settle_made(parts, made);
    parts.graph.is_view();
}
