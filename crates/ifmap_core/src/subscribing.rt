//! A subscribe in a session: its operations are made ready, and then accepted or refused.
ghost use Rattle.std.specs.Prelude.{◌≡◌, ◌≤◌, ◌<◌, ◌+◌, ◌++◌, None, Some, OnOk, vec_capacity, vec_len};
ghost use Rattle.std.specs.BTreeMap.{get};
ghost use Rattle.std.specs.List.{AllByRecursion};
ghost use Rattle.std.specs.Ordering.{nat_cmp};
ghost use Rattle.ifmap_subscribes.specs.ifmap_changes.Between.{AreKept, AreLaterParts, IsSoundSoFar, IsSteady, sessions_left, state_now};
ghost use Rattle.ifmap_core.specs.Answering.{CanAnswer, GivesCompletion, AreLaterOrKept};
ghost use Rattle.ifmap_core.specs.Completions.{state_with_error};
ghost use Rattle.ifmap_core.specs.Subscribing.{AcceptsReady, AreReadyIn};
ghost use Rattle.ifmap_subscribes.specs.ifmap_graph.Seen.{rows_now};
ghost use Rattle.ifmap_subscribes.specs.ifmap_machine.Step.{answer_subscribed};
ghost use Rattle.ifmap_subscribes.specs.ifmap_machine.Subscribing.{subscribe_ops};
ghost use Rattle.ifmap_subscribes.specs.ifmap_requests.Fit.{IsFitSubscribeOp};
ghost use Rattle.ifmap_session.specs.Sessions.{IsLive, Session, session_with_serial, spare_of};
ghost use Rattle.ifmap_subscribes.specs.Bounds.{AreOpsWithin};
ghost use Rattle.ifmap_subscribes.specs.Renamings.{starts_by};
ghost use Rattle.ifmap_subscribes.specs.ifmap_tellings.Tellings.{HasSameSessions, count_where};

use crate::completions::{Completion, refuse};
use ifmap_elem::Many;
use ifmap_ident::Code;
use ifmap_steps::Steps;
use ifmap_subscribes::readying::{Occasion, Readying, SubscribeError, ready_ops};
use ifmap_subscribes::renamings::{Renaming, release_all};
use ifmap_subscribes::{
    Answer, Asking, Parts, Pending, Reply, SubscribeOp, count_told, flag_session,
    same_links_keep_subscriptions, tell_alone,
};
use std::alloc::{AllocError as NoMemory, Global};
use std::sync::ledger::Ledger;

// The operations of a subscribe, and the serial of the session in which they are asked.
#[derive(Drop)]
pub(crate) struct SessionOps<'a> {
    pub(crate) serial: u64,
    pub(crate) ops: &'a Many<SubscribeOp>,
}

// What a subscribe makes of a session of the client's.
pub(crate) fn subscribe_in<L: Ledger>(
    alloc: Global,
    parts: &mut Parts,
    pending: &mut Pending,
    asking: &Asking,
    ops: &SessionOps<'_>,
    steps: &mut Steps<L>,
) -> Result<Completion, NoMemory>
    requires can { CanAnswer asking.now parts.old pending.old }
    requires live { IsLive ops.now.serial (sessions_left asking.now parts.old.sessions) }
    requires fit { AllByRecursion IsFitSubscribeOp ops.now.ops.now }
    ensures leads { let before = state_now asking.now parts.old pending.old in (s : Session)
        → session_with_serial ops.now.serial before.sessions ≡ Some s
        → GivesCompletion result asking.now parts.new pending.new
        (answer_subscribed before s (subscribe_ops before.graph ops.now.serial ops.now.ops.now
        (record { queue = s.queue; standing = before.standing }))) }
    ensures change { AreLaterOrKept result parts.old parts.new }
    ensures steps { AreOpsWithin (rows_now parts.old.graph) ops.now.ops.now steps.old steps.new }
{
    let scene = Occasion {
        pending: &*pending,
        asking: &*asking,
        serial: ops.serial,
    };
    match ready_ops(alloc, parts, &scene, ops.ops, steps) {
        Ok(readying) => accept_ops(alloc, parts, pending, asking, ops.serial, readying),
        Err(SubscribeError::TooMany) => refuse(alloc, Code::SystemError),
        Err(SubscribeError::NoMemory) => Err(NoMemory),
    }
}

// The operations that were made ready are accepted: the names are to be renamed, or what the session is
// to be told is greater than its limit.
fn accept_ops(
    alloc: Global,
    parts: &mut Parts,
    pending: &mut Pending,
    asking: &Asking,
    serial: u64,
    readying: Readying,
) -> Result<Completion, NoMemory>
    requires { AreReadyIn serial readying asking.now parts.old pending.old }
    ensures leads { AcceptsReady result serial readying asking.now parts.old pending.old
        parts.new pending.new }
    ensures change { AreLaterOrKept result parts.old parts.new }
{
    parts.sessions.is_table();
    let (_size, limit) = parts.sessions.queue_size(serial);
    if (limit as u128) < readying.size {
        return overrun(alloc, parts, pending, asking, serial, readying);
    }
    rename_ready(alloc, parts, pending, asking, serial, readying)
}

// The names are to be renamed, where there is room.
fn rename_ready(
    alloc: Global,
    parts: &mut Parts,
    pending: &Pending,
    asking: &Asking,
    serial: u64,
    readying: Readying,
) -> Result<Completion, NoMemory>
    requires ops { AreReadyIn serial readying asking.now parts.old pending.now }
    requires within { (s : Session) → session_with_serial serial parts.old.sessions.live ≡ Some s
        → readying.size ≤ s.limit }
    ensures leads { AcceptsReady result serial readying asking.now parts.old pending.now
        parts.new pending.now }
    ensures change { AreLaterOrKept result parts.old parts.new }
{
    parts.sessions.is_table();
    let Readying { made, .. } = readying;
    match make_places(parts, pending, serial, made.len()) {
        Ok(()) => Ok(Completion::Rename {
            serial,
            renamings: Many(made),
        }),
        Err(no_memory) => {
            let_go(parts, pending, asking, Many(made));
            Err(no_memory)
        }
    }
}

// What the session is to be told is greater than its limit: one error takes the place of all, and its
// subscriptions are gone.
fn overrun(
    alloc: Global,
    parts: &mut Parts,
    pending: &mut Pending,
    asking: &Asking,
    serial: u64,
    readying: Readying,
) -> Result<Completion, NoMemory>
    requires ops { AreReadyIn serial readying asking.now parts.old pending.old }
    requires over { (s : Session) → session_with_serial serial parts.old.sessions.live ≡ Some s
        → s.limit < readying.size }
    ensures leads { AcceptsReady result serial readying asking.now parts.old pending.old
        parts.new pending.new }
    ensures change { AreLaterOrKept result parts.old parts.new }
{
    parts.sessions.is_table();
    let Readying { made, size, .. } = readying;
    let_go(parts, pending, asking, Many(made));
    tell_over(alloc, parts, pending, asking, serial, size)?;
    let answer = Answer::Reply(Reply::Subscribed);
    Ok(Completion::Accept { serial, answer })
}

// A session is to be told that its queue would have that size, in place of all, and its subscriptions
// are gone.
fn tell_over(
    alloc: Global,
    parts: &mut Parts,
    pending: &mut Pending,
    asking: &Asking,
    serial: u64,
    size: u128,
) -> Result<(), NoMemory>
    requires ready { IsSoundSoFar asking.now parts.old pending.old }
    requires live { IsLive serial (sessions_left asking.now parts.old.sessions) }
    ensures told { OnOk result (state_now asking.now parts.new pending.new
        ≡ state_with_error serial size (state_now asking.now parts.old pending.old)) }
    ensures ready { OnOk result (IsSoundSoFar asking.now parts.new pending.new) }
    ensures graph { parts.new.graph ≡ parts.old.graph }
    ensures standing { parts.new.standing ≡ parts.old.standing }
    ensures sessions { HasSameSessions parts.old.sessions parts.new.sessions }
{
    parts.sessions.is_table();
    if (u64::MAX as u128) < size {
        return Err(NoMemory);
    }
    tell_alone(
        alloc,
        &mut parts.sessions,
        &mut pending.tellings,
        serial,
        size as u64,
    )?;
    flag_session(&parts.standing, pending, serial);
    Ok(())
}

// The numbers are let go of that were held for subscriptions which are not to stand. It takes no memory.
fn let_go(parts: &mut Parts, pending: &Pending, asking: &Asking, made: Many<Renaming>)
    requires steady { IsSteady parts.old.graph (parts.old.standing.items ++ starts_by made) }
    requires ready { IsSoundSoFar asking.now parts.old pending.now }
    ensures steady { IsSteady parts.new.graph parts.new.standing.items }
    ensures ready { IsSoundSoFar asking.now parts.new pending.now }
    ensures state_now { state_now asking.now parts.new pending.now
        ≡ state_now asking.now parts.old pending.now }
    ensures later { AreLaterParts parts.old parts.new }
    ensures kept { AreKept parts.old parts.new }
    ensures sessions { parts.new.sessions ≡ parts.old.sessions }
    ensures standing { parts.new.standing ≡ parts.old.standing }
{
    same_links_keep_subscriptions();
    parts.graph.is_view();
    release_all(&mut parts.graph, made);
    parts.graph.is_view();
}

// Room for so many subscriptions, and for so many items after what is pending of a session.
fn make_places(
    parts: &mut Parts,
    pending: &Pending,
    serial: u64,
    count: usize,
) -> Result<(), NoMemory>
    requires { IsLive serial parts.old.sessions.live }
    ensures graph { parts.new.graph ≡ parts.old.graph }
    ensures standing { parts.new.standing.items ≡ parts.old.standing.items }
    ensures sessions { HasSameSessions parts.old.sessions parts.new.sessions }
    ensures places { OnOk result (vec_len parts.new.standing + count
        ≤ vec_capacity parts.new.standing) }
    ensures room { OnOk result (count_where (get nat_cmp pending.now.tellings serial) + count
        ≤ spare_of serial parts.new.sessions.spare) }
{
    parts.standing.reserve(count)?;
    let pending_count = match pending.tellings.get(&serial) {
        Some(telling) => count_told(telling),
        None => 0,
    };
    let room = pending_count.checked_add(count as u64).ok_or(NoMemory)?;
    parts.sessions.queue_room(serial, room)
}
