//! Answers, as they are written.
ghost use Rattle.std.specs.Prelude.{◌≡◌, ℕ, List, IsTrue};
ghost use Rattle.ifmap_io.specs.Causes.{Rose};
ghost use Rattle.ifmap_http.specs.ifmap_heads.Messages.{answer_bytes, is_answer_status};
ghost use Rattle.ifmap_http.specs.Wires.{wire_seen};
ghost use Rattle.ifmap_dialogue.specs.Answers.{closes, end_after, next_after, reply_answer};
ghost use Rattle.ifmap_dialogue.specs.Wires.{GainsBytes, IsNoMemoryOutput, WritesAnswer, WritesOnce, bare_answer};

use crate::desks::{AFTER_ANSWER, Gate};
use crate::endings::Ending;
use ifmap_http::{Sent, Wire};
use ifmap_io::Link;
use ifmap_machine::{Reply, write_reply};
use std::alloc::Global;

// The statuses of the answers that are written.
const OK: u16 = 200;

const SERVICE_UNAVAILABLE: u16 = 503;

pub(crate) const BAD_REQUEST: u16 = 400;

pub(crate) const INSUFFICIENT_STORAGE: u16 = 507;

/// What is done with a connection after an answer.
#[derive(Clone, Copy, Debug, PartialEq, Eq)]
pub enum Then {
    /// The next post is read.
    GoOn,
    /// It is closed.
    Close,
}

// Writes the answer with a reply.
pub(crate) fn send_reply<L: Link, G: Gate>(
    alloc: Global,
    wire: &mut Wire<L>,
    gate: &mut G,
    reply: &Reply,
    then: Then,
) -> Sent
    ensures writes { let seen = wire_seen L.left L.held L.Source.faults L.Sink.faults in
        (output : List ℕ) × WritesAnswer (reply_answer reply.now (closes then)) result output
        × GainsBytes (seen wire.old) (seen wire.new) output }
    ensures fault { result ≡ Sent.WriteFault
        → Rose (L.Sink.faults wire.old.link) (L.Sink.faults wire.new.link) }
{
    match write_reply(alloc, reply) {
        Ok(body) => send(alloc, wire, gate, OK, body.as_slice(), then),
        Err(_) => {
            give_up(alloc, wire, gate);
            Sent::NoMemory
        }
    }
}

// Writes an answer without a body, which closes the connection.
pub(crate) fn send_bare<L: Link, G: Gate>(
    alloc: Global,
    wire: &mut Wire<L>,
    gate: &mut G,
    status: u16,
) -> Sent
    requires { IsTrue (is_answer_status status) }
    ensures writes { let seen = wire_seen L.left L.held L.Source.faults L.Sink.faults in
        (output : List ℕ) × WritesAnswer (bare_answer status) result output
        × GainsBytes (seen wire.old) (seen wire.new) output }
    ensures fault { result ≡ Sent.WriteFault
        → Rose (L.Sink.faults wire.old.link) (L.Sink.faults wire.new.link) }
{
    send(alloc, wire, gate, status, b"", Then::Close)
}

// Writes an answer. Want of memory is answered too, as far as can be.
fn send<L: Link, G: Gate>(
    alloc: Global,
    wire: &mut Wire<L>,
    gate: &mut G,
    status: u16,
    body: &[u8],
    then: Then,
) -> Sent
    requires { IsTrue (is_answer_status status) }
    ensures writes { let seen = wire_seen L.left L.held L.Source.faults L.Sink.faults in
        (output : List ℕ) × WritesAnswer (answer_bytes status body.now (closes then)) result output
        × GainsBytes (seen wire.old) (seen wire.new) output }
    ensures fault { result ≡ Sent.WriteFault
        → Rose (L.Sink.faults wire.old.link) (L.Sink.faults wire.new.link) }
{
    match write(alloc, wire, gate, status, body, then) {
        Sent::Done => Sent::Done,
        Sent::WriteFault => Sent::WriteFault,
        Sent::NoMemory => {
            give_up(alloc, wire, gate);
            Sent::NoMemory
        }
    }
}

// Answers want of memory, as far as can be.
pub(crate) fn give_up<L: Link, G: Gate>(alloc: Global, wire: &mut Wire<L>, gate: &mut G)
    ensures { let seen = wire_seen L.left L.held L.Source.faults L.Sink.faults in
        (output : List ℕ) × IsNoMemoryOutput output
        × GainsBytes (seen wire.old) (seen wire.new) output }
{
    let _sent = write(alloc, wire, gate, SERVICE_UNAVAILABLE, b"", Then::Close);
}

// Writes an answer once, and passes the gate after it where all of it was written.
fn write<L: Link, G: Gate>(
    alloc: Global,
    wire: &mut Wire<L>,
    gate: &mut G,
    status: u16,
    body: &[u8],
    then: Then,
) -> Sent
    requires { IsTrue (is_answer_status status) }
    ensures writes { let seen = wire_seen L.left L.held L.Source.faults L.Sink.faults in
        (output : List ℕ) × WritesOnce (answer_bytes status body.now (closes then)) result output
        × GainsBytes (seen wire.old) (seen wire.new) output }
    ensures fault { result ≡ Sent.WriteFault
        → Rose (L.Sink.faults wire.old.link) (L.Sink.faults wire.new.link) }
{
    let sent = wire.write_answer(alloc, status, body, closes(then));
    if sent == Sent::Done {
        gate.pass(AFTER_ANSWER);
    }
    sent
}

// How the connection ends after an answer: as is due, where all of it was written.
pub(crate) fn next_after(sent: Sent, due: Option<Ending>) -> Option<Ending>
    ensures { result ≡ next_after sent due }
{
    match sent {
        Sent::Done => due,
        Sent::WriteFault => Some(Ending::WriteFault),
        Sent::NoMemory => Some(Ending::NoMemory),
    }
}

// How it ends after an answer with status 200, if it does.
pub(crate) fn end_after(then: Then) -> Option<Ending>
    ensures { result ≡ end_after (closes then) }
{
    match then {
        Then::GoOn => None,
        Then::Close => Some(Ending::Closed),
    }
}

// Whether an answer is to say that the connection will be closed.
fn closes(then: Then) -> bool
    ensures { result ≡ closes then }
{
    match then {
        Then::GoOn => false,
        Then::Close => true,
    }
}
