//! What is left to do of an event when its change of the graph is made.
ghost use Rattle.std.specs.Prelude.{◌≡◌, ◌≤◌, ◌++◌, ℕ, List, IfOk, IfSome, length, map, vec_capacity, vec_len};
ghost use Rattle.ifmap_core.specs.declared.completions.Completion.TheVariants.{Say};
ghost use Rattle.ifmap_subscribes.specs.ifmap_changes.Between.{AreParts, CanEnd, IsSteady, state_now, state_at};
ghost use Rattle.ifmap_core.specs.Completions.{CanApplyTo, CanFinish, WouldBeParts, after_former, after_completion, first_renewed, starts_in, poll_answer, poll_found};
ghost use Rattle.ifmap_subscribes.specs.ifmap_tellings.Tellings.{kept_items};
ghost use Rattle.ifmap_subscribes.specs.ifmap_machine.State.{State};
ghost use Rattle.ifmap_subscribes.specs.ifmap_machine.Step.{refusal};
ghost use Rattle.ifmap_session.specs.Sessions.{IsLive, change, session_with_serial, spare_of, without_items, without_sessions};
ghost use Rattle.ifmap_subscribes.specs.ifmap_standing.declared.standing.Standing.{Standing};
ghost use Rattle.ifmap_subscribes.specs.ifmap_standing.Standing.{standing_of};
ghost use Rattle.ifmap_subscribes.specs.ifmap_graph.Seen.{StaysLean, rows_now};
ghost use Rattle.ifmap_subscribes.specs.Renamings.{KeepsNumbered};

use ifmap_elem::{Many, Text};
use ifmap_ident::Code;
use ifmap_io::Moment;
use ifmap_session::{Opening, PollItem, Sessions};
use ifmap_subscribes::renamings::{Renaming, release_start, rename_each};
use ifmap_subscribes::{Answer, Asking, Graph, Parts, Pending, Reply, Standing, tell_sessions};
use std::alloc::{AllocError as NoMemory, Global};

/// What is left to do, with the answer. It takes no memory.
#[derive(Drop)]
pub enum Completion {
    /// Nothing.
    Say(Answer),
    /// A request in a session was accepted.
    Accept {
        serial: u64,
        answer: Answer,
    },
    /// A session ends.
    End {
        serial: u64,
        answer: Answer,
    },
    /// A session begins, in place of the one that the client has.
    Open {
        former: Option<u64>,
        opening: Opening,
        limit: u32,
        publisher: Text,
    },
    /// Names of a session are renamed.
    Rename {
        serial: u64,
        renamings: Many<Renaming>,
    },
    /// A session's queue is told.
    Poll {
        serial: u64,
        again: bool,
    },
}

// A refusal whose note is the code's name.
pub(crate) fn refuse(alloc: Global, code: Code) -> Result<Completion, NoMemory>
    ensures { IfOk result (λ completion. completion ≡ Say (refusal code)) }
{
    let note = Text(String::from_str(alloc, code.name())?);
    Ok(Completion::Say(Answer::Reply(Reply::Error { code, note })))
}

// The session that a client had ends, if it had one.
fn end_former(sessions: &mut Sessions, former: Option<u64>)
    requires { IfSome former (λ n. IsLive n sessions.old.live) }
    ensures live { sessions.new.live ≡ after_former former sessions.old.live }
    ensures counter { sessions.new.counter ≡ sessions.old.counter }
    ensures room { sessions.old.room ≤ sessions.new.room }
{
    if let Some(serial) = former {
        sessions.end(serial);
    }
}

// What a poll tells, of a live session. It takes no memory.
fn tell_queue(sessions: &mut Sessions, moment: Moment, serial: u64, again: bool) -> Answer
    requires { IsLive serial sessions.old.live }
    ensures told { (state : State) → state.moment ≡ moment
        → state.sessions ≡ sessions.old.live
        → poll_found state again (session_with_serial serial state.sessions)
        ≡ (record state { sessions = sessions.new.live }, result) }
    ensures live { sessions.new.live
        ≡ first_renewed again serial moment (change serial without_items sessions.old.live) }
    ensures counter { sessions.new.counter ≡ sessions.old.counter }
{
    sessions.is_table();
    let items = sessions.take_all(serial);
    renew_first(sessions, moment, serial, again);
    answer_with(items)
}

// The answer to a poll: what there is to tell, or held where there is nothing.
fn answer_with(items: Many<PollItem>) -> Answer
    ensures { result ≡ poll_answer items }
{
    if items.is_empty() {
        return Answer::Held;
    }
    Answer::Reply(Reply::Polled(items))
}

// A poll is a sign of life, unless it is asked again.
fn renew_first(sessions: &mut Sessions, moment: Moment, serial: u64, again: bool)
    requires { IsLive serial sessions.old.live }
    ensures live { sessions.new.live ≡ first_renewed again serial moment sessions.old.live }
    ensures counter { sessions.new.counter ≡ sessions.old.counter }
{
    if !again {
        sessions.renew(serial, moment);
    }
}

// The subscriptions that are gone stand no longer, and their starts are let go of. It takes no
// memory.
fn remove_gone(parts: &mut Parts, gone: &[bool])
    requires flags { length gone.now ≡ length parts.old.standing.items }
    requires steady { (more : List Standing)
        × IsSteady parts.old.graph (parts.old.standing.items ++ more) }
    ensures standing { parts.new.standing.items ≡ kept_items gone.now parts.old.standing.items }
    ensures steady { (more : List Standing)
        → IsSteady parts.old.graph (parts.old.standing.items ++ more)
        → IsSteady parts.new.graph (parts.new.standing.items ++ more) }
    ensures rows { rows_now parts.new.graph ≡ rows_now parts.old.graph }
    ensures lean { StaysLean parts.old.graph parts.new.graph }
    ensures kept { KeepsNumbered parts.old.graph parts.new.graph }
    ensures sessions { parts.new.sessions ≡ parts.old.sessions }
    ensures len { vec_len parts.new.standing ≤ vec_len parts.old.standing }
    ensures capacity { vec_capacity parts.new.standing ≡ vec_capacity parts.old.standing }
{
    release_gone(&mut parts.graph, &parts.standing, gone);
    keep_others(&mut parts.standing, gone);
}

// The starts of subscriptions that are gone are let go of.
fn release_gone(graph: &mut Graph, standing: &[Standing], gone: &[bool])
    requires flags { length gone.now ≡ length standing.now }
    requires steady { (more : List Standing) × IsSteady graph.old (standing.now ++ more) }
    ensures steady { (more : List Standing) → IsSteady graph.old (standing.now ++ more)
        → IsSteady graph.new (kept_items gone.now standing.now ++ more) }
    ensures rows { rows_now graph.new ≡ rows_now graph.old }
    ensures lean { StaysLean graph.old graph.new }
    ensures kept { KeepsNumbered graph.old graph.new }
{
    for at in 0..standing.len() {
        if gone[at] {
            release_start(graph, &standing[at]);
        }
    }
}

// What is gone leaves the list; the others stay in their order.
fn keep_others(standing: &mut Vec<Standing>, gone: &[bool])
    requires { length gone.now ≡ length standing.old.items }
    ensures standing { standing.new.items ≡ kept_items gone.now standing.old.items }
    ensures len { vec_len standing.new ≤ vec_len standing.old }
    ensures capacity { vec_capacity standing.new ≡ vec_capacity standing.old }
{
    let mut count = 0;
    for at in 0..gone.len() {
        if !gone[at] {
            standing.swap(count, at);
            count += 1;
        }
    }
    standing.truncate(count);
}

// Does what is left to do, and gives the answer.
pub(crate) fn apply_completion(parts: &mut Parts, moment: Moment, completion: Completion) -> Answer
    requires can { CanApplyTo completion parts.old }
    requires parts { WouldBeParts (starts_in completion) parts.old }
    ensures answer { (state : State) → state.moment ≡ moment
        → state.sessions ≡ parts.old.sessions.live → state.counter ≡ parts.old.sessions.counter
        → state.standing ≡ map standing_of parts.old.standing.items
        → after_completion completion state ≡ (
          record state {
            counter = parts.new.sessions.counter;
            sessions = parts.new.sessions.live;
            standing = map standing_of parts.new.standing.items;
          },
          result,
        ) }
    ensures parts { AreParts parts.new }
    ensures rows { rows_now parts.new.graph ≡ rows_now parts.old.graph }
    ensures lean { StaysLean parts.old.graph parts.new.graph }
{
    parts.sessions.is_table();
    match completion {
        Completion::Say(answer) => answer,
        Completion::Accept { serial, answer } => {
            parts.sessions.renew(serial, moment);
            answer
        }
        Completion::End { serial, answer } => {
            parts.sessions.end(serial);
            answer
        }
        Completion::Open {
            former,
            opening,
            limit,
            publisher,
        } => {
            end_former(&mut parts.sessions, former);
            let session = parts.sessions.open(opening, limit, moment).id;
            Answer::Reply(Reply::NewSession {
                session,
                publisher,
                limit,
            })
        }
        Completion::Rename { serial, renamings } => {
            rename_each(parts, serial, renamings);
            parts.sessions.renew(serial, moment);
            Answer::Reply(Reply::Subscribed)
        }
        Completion::Poll { serial, again } => {
            tell_queue(&mut parts.sessions, moment, serial, again)
        }
    }
}

// The sessions end that have expired.
fn end_expired(sessions: &mut Sessions, ended: &[u64])
    requires { CanEnd ended.now sessions.old.live }
    ensures live { sessions.new.live ≡ without_sessions ended.now sessions.old.live }
    ensures counter { sessions.new.counter ≡ sessions.old.counter }
    ensures room { sessions.old.room ≤ sessions.new.room }
    ensures spare { (n : ℕ) → IsLive n sessions.new.live
        → spare_of n sessions.new.spare ≡ spare_of n sessions.old.spare }
{
    for serial in ended {
        sessions.end(*serial);
    }
}

// Ends what has expired, queues what is pending, removes what is gone, does what is left to do, and
// gives the answer. It takes no memory.
pub(crate) fn finish(
    parts: &mut Parts,
    pending: Pending,
    asking: &Asking,
    completion: Completion,
) -> Answer
    requires { CanFinish completion asking.now parts.old pending }
    ensures answer { after_completion completion (state_now asking.now parts.old pending)
        ≡ (state_at asking.now.ttl asking.now.moment parts.new, result) }
    ensures parts { AreParts parts.new }
    ensures lean { StaysLean parts.old.graph parts.new.graph }
{
    let Pending { gone, tellings } = pending;
    end_expired(&mut parts.sessions, asking.ended);
    tell_sessions(&mut parts.sessions, tellings);
    remove_gone(parts, &gone);
    apply_completion(parts, asking.moment, completion)
}
