//! How a session begins.
ghost use Rattle.std.specs.Prelude.{◌≡◌, ◌<◌, ◌-◌, ◌^◌, ◌&&◌, nat_le, false, is_none, length, option_map, IfSome, OnErr, OnOk};
ghost use Rattle.std.specs.Bool.{OnFalse};
ghost use Rattle.ifmap_subscribes.specs.ifmap_changes.Between.{AreChanged, AreKept, CanEnd, HasNoSubscriptions, sessions_left, state_now};
ghost use Rattle.ifmap_subscribes.specs.ifmap_changes.declared.parts.Parts.{Parts};
ghost use Rattle.ifmap_subscribes.specs.ifmap_tellings.declared.tellings.Pending.{Pending};
ghost use Rattle.ifmap_core.specs.Answering.{CanAnswer, GivesCompletion, AreLaterOrKept};
ghost use Rattle.ifmap_core.specs.Bounds.{IsBegunWithin, IsFormerWithin};
ghost use Rattle.ifmap_core.specs.Completions.{take_former};
ghost use Rattle.ifmap_subscribes.specs.ifmap_machine.Step.{is_full, new_session};
ghost use Rattle.ifmap_session.specs.Sessions.{most_sessions, session_of_client};

use crate::completions::{Completion, refuse};
use crate::owning::former_of;
use ifmap_elem::Copied;
use ifmap_ident::Code;
use ifmap_session::{MOST_SESSIONS, Sessions, limit_of};
use ifmap_steps::Steps;
use ifmap_subscribes::{Asking, Parts, Pending, take_away_one};
use std::alloc::{AllocError as NoMemory, Global};
use std::sync::ledger::Ledger;

// What a session is to begin with: the random word of its id, and the limit that is asked for.
#[derive(Clone, Copy)]
pub(crate) struct NewSession {
    pub(crate) random: u128,
    pub(crate) limit: Option<u32>,
}

// A session in place of the one that the client has, where it can have one.
pub(crate) fn new_session<L: Ledger>(
    alloc: Global,
    parts: &mut Parts,
    pending: &mut Pending,
    asking: &Asking,
    wish: NewSession,
    steps: &mut Steps<L>,
) -> Result<Completion, NoMemory>
    requires { CanAnswer asking.now parts.old pending.old }
    ensures leads { let before = state_now asking.now parts.old pending.old in
        GivesCompletion result asking.now parts.new pending.new
        (new_session before asking.now.client wish.random wish.limit) }
    ensures change { AreLaterOrKept result parts.old parts.new }
    ensures steps { IsBegunWithin (state_now asking.now parts.old pending.old) asking.now.client
        steps.old steps.new }
{
    if is_full(&parts.sessions, asking) {
        return refuse(alloc, Code::SystemError);
    }
    begin(alloc, parts, pending, asking, wish, steps)
}

// Whether the client can be given no session.
fn is_full(sessions: &Sessions, asking: &Asking) -> bool
    requires { CanEnd asking.now.ended sessions.now.live }
    ensures full { (parts : Parts) (pending : Pending) → parts.sessions ≡ sessions.now
        → result ≡ is_full (state_now asking.now parts pending) asking.now.client }
    ensures next { OnFalse result (sessions.now.counter < 2 ^ 64 - 1) }
{
    sessions.is_table();
    let (_live, counter) = sessions.counts();
    is_taken(sessions, asking) || counter == u64::MAX
}

// Whether all sessions are taken, and none by the client.
fn is_taken(sessions: &Sessions, asking: &Asking) -> bool
    requires { CanEnd asking.now.ended sessions.now.live }
    ensures { result ≡ (nat_le most_sessions (length (sessions_left asking.now sessions.now))
        && is_none (session_of_client asking.now.client (sessions_left asking.now sessions.now))) }
{
    let count = count_left(sessions, asking);
    MOST_SESSIONS as u64 <= count && has_none(sessions, asking)
}

// How many sessions are left.
fn count_left(sessions: &Sessions, asking: &Asking) -> u64
    requires { CanEnd asking.now.ended sessions.now.live }
    ensures { result ≡ length (sessions_left asking.now sessions.now) }
{
    sessions.is_table();
    let (live, _counter) = sessions.counts();
    let ended = asking.ended.len() as u64;
    live - ended
}

// Whether no session is left of the client's.
fn has_none(sessions: &Sessions, asking: &Asking) -> bool
    ensures { result ≡ is_none (session_of_client asking.now.client
        (sessions_left asking.now sessions.now)) }
{
    former_of(sessions, asking).is_none()
}

// A session begins.
fn begin<L: Ledger>(
    alloc: Global,
    parts: &mut Parts,
    pending: &mut Pending,
    asking: &Asking,
    wish: NewSession,
    steps: &mut Steps<L>,
) -> Result<Completion, NoMemory>
    requires can { CanAnswer asking.now parts.old pending.old }
    requires free { is_full (state_now asking.now parts.old pending.old) asking.now.client ≡ false }
    requires next { parts.old.sessions.counter < 2 ^ 64 - 1 }
    ensures leads { let before = state_now asking.now parts.old pending.old in
        GivesCompletion result asking.now parts.new pending.new
        (new_session before asking.now.client wish.random wish.limit) }
    ensures change { AreLaterOrKept result parts.old parts.new }
    ensures steps { let before = state_now asking.now parts.old pending.old in
        IsFormerWithin (option_map (λ s. s.serial)
        (session_of_client asking.now.client before.sessions)) before steps.old steps.new }
{
    let former = former_of(&parts.sessions, asking);
    let opening = parts.sessions.prepare(alloc, asking.client, wish.random)?;
    parts.sessions.is_table();
    let publisher = asking.client.text().copy(alloc)?;
    take_away_former(alloc, parts, pending, asking, former, steps)?;
    Ok(Completion::Open {
        former,
        opening,
        limit: limit_of(wish.limit),
        publisher,
    })
}

// Takes away what was to stay as long as the session that the client had, if it had one.
fn take_away_former<L: Ledger>(
    alloc: Global,
    parts: &mut Parts,
    pending: &mut Pending,
    asking: &Asking,
    former: Option<u64>,
    steps: &mut Steps<L>,
) -> Result<(), NoMemory>
    requires { CanAnswer asking.now parts.old pending.old }
    ensures told { OnOk result (state_now asking.now parts.new pending.new
        ≡ take_former former (state_now asking.now parts.old pending.old)) }
    ensures changed { OnOk result (AreChanged asking.now parts.old parts.new pending.new) }
    ensures bare { OnOk result (IfSome former (λ n. HasNoSubscriptions n parts.new pending.new)) }
    ensures kept { OnErr result (AreKept parts.old parts.new) }
    ensures steps { IsFormerWithin former (state_now asking.now parts.old pending.old) steps.old
        steps.new }
{
    match former {
        Some(serial) => take_away_one(alloc, parts, pending, asking, serial, steps),
        None => Ok(()),
    }
}
