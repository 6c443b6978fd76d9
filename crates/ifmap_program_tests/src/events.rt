//! Events, and what is told of their answers.
ghost use Rattle.std.specs.Prelude.{◌≡◌, IfOk};
ghost use Rattle.ifmap_dialogue.specs.ifmap_machine.Events.{IsFitAsk};
ghost use Rattle.ifmap_dialogue.specs.ifmap_machine.State.{opening_state, session_seconds};

use crate::bodies::{client_of, request_of};
use ifmap_desks::{Core, CoreMachine, SESSION_SECONDS};
use ifmap_dialogue::{Answer, Ask, Event};
use ifmap_hall::Asked;
use ifmap_io::Moment;
use ifmap_replies::Reply;
use ifmap_requests::Request;
use std::alloc::{AllocError as NoMemory, Global};

pub(crate) const BEGIN: &str = "<i:newSession/>";

pub(crate) const FIRST_POLL: &str = "<i:poll session-id='1-00000000-0000-0000-0000-000000000001'/>";

pub(crate) const FIRST_RENEWAL: &str =
    "<i:renewSession session-id='1-00000000-0000-0000-0000-000000000001'/>";

pub(crate) const FIRST_PUBLISH: &str =
    "<i:publish session-id='1-00000000-0000-0000-0000-000000000001'><update lifetime='forever'><mac-address value='00:00:5e:00:53:01'/><metadata><m:role ifmap-cardinality='multiValue'><name>r</name></m:role></metadata></update></i:publish>";

pub(crate) const SECOND_SEARCH: &str =
    "<i:search session-id='2-00000000-0000-0000-0000-000000000002'><mac-address value='00:00:5e:00:53:01'/></i:search>";

// A machine that begins with no session.
pub(crate) fn machine(alloc: Global) -> CoreMachine
    ensures { result ≡ record { core = opening_state session_seconds } }
{
    CoreMachine {
        core: Core::new(alloc, SESSION_SECONDS),
    }
}

fn start() -> Moment
    ensures { result ≡ 1000000000 }
{
    Moment::new(1_000_000_000).unwrap()
}

// What a client asks: its name, the random word, whether it is asked again, and what stands in the
// body.
#[derive(Clone, Copy)]
pub(crate) struct Asking<'a> {
    pub(crate) name: &'a str,
    pub(crate) random: u128,
    pub(crate) again: bool,
    pub(crate) inner: &'a str,
}

// What is asked for the first time.
pub(crate) fn first<'a>(name: &'a str, random: u128, inner: &'a str) -> Asking<'a> {
    Asking {
        name,
        random,
        again: false,
        inner,
    }
}

// What is asked again.
pub(crate) fn repetition<'a>(name: &'a str, random: u128, inner: &'a str) -> Asking<'a> {
    Asking {
        name,
        random,
        again: true,
        inner,
    }
}

// The event of it; the body counts as 228 bytes.
pub(crate) fn event_of(alloc: Global, asking: Asking<'_>) -> Result<Event, NoMemory>
    ensures { IfOk result (λ event. event.bytes ≡ 228) }
{
    let request = request_of(alloc, asking.inner)?;
    let client = client_of(alloc, asking.name)?;
    // The look tells the proof that the client has a name.
    let _ = client.text();
    Ok(Event {
        moment: start(),
        client,
        random: asking.random,
        again: asking.again,
        bytes: 228,
        ask: Ask::Request(request),
    })
}

// The session of a poll that stands in a body, as what was lost.
fn loss_of(alloc: Global, inner: &str) -> Result<Ask, NoMemory>
    ensures { IfOk result IsFitAsk }
{
    match request_of(alloc, inner)? {
        Request::Poll { session } => Ok(Ask::Lost(session)),
        _ => Err(NoMemory),
    }
}

// The event that tells that the answer to this poll of a client was lost.
pub(crate) fn loss_event(alloc: Global, name: &str, inner: &str) -> Result<Event, NoMemory>
    ensures { IfOk result (λ event. event.bytes ≡ 0) }
{
    let ask = loss_of(alloc, inner)?;
    let client = client_of(alloc, name)?;
    let _ = client.text();
    Ok(Event {
        moment: start(),
        client,
        random: 0,
        again: false,
        bytes: 0,
        ask,
    })
}

// What a machine answers.
#[derive(Clone, Copy, Debug, PartialEq)]
pub(crate) enum AnswerKind {
    Began,
    Renewed,
    Ended,
    Published,
    // So many entries were found.
    Found(usize),
    Refused,
    Other,
    Waits,
    Heard,
}

// What is answered at a desk.
#[derive(Clone, Copy, Debug, PartialEq)]
pub(crate) enum Told {
    Done(u64, AnswerKind),
    Held(u64),
    Spent(u64),
    NoMemory,
}

fn kind_of(answer: Answer) -> AnswerKind {
    match answer {
        Answer::Held => AnswerKind::Waits,
        Answer::Heard => AnswerKind::Heard,
        Answer::Reply(reply) => match reply {
            Reply::NewSession { .. } => AnswerKind::Began,
            Reply::Renewed => AnswerKind::Renewed,
            Reply::Ended => AnswerKind::Ended,
            Reply::Published => AnswerKind::Published,
            Reply::Found(entries) => AnswerKind::Found(entries.len()),
            Reply::Error { .. } => AnswerKind::Refused,
            _ => AnswerKind::Other,
        },
    }
}

pub(crate) fn tell<E: Drop>(asked: Asked<E, Answer>) -> Told {
    match asked {
        Asked::Done { place, reply } => Told::Done(place, kind_of(reply)),
        Asked::Held { place, .. } => Told::Held(place),
        Asked::Spent { entries, .. } => Told::Spent(entries),
        Asked::NoMemory { .. } => Told::NoMemory,
    }
}
