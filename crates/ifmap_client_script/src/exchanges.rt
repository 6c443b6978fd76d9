//! Requests over a wire, each answered before the next is sent.
ghost use Rattle.std.specs.Prelude.{IsFalse, IsTrue};
ghost use Rattle.ifmap_http.specs.ifmap_heads.Messages.{is_visible};
ghost use Rattle.ifmap_http.specs.Wires.{wire_seen};
ghost use Rattle.ifmap_client_script.specs.Ends.{IsLaterWire};
ghost use Rattle.ifmap_client_script.specs.Exchanges.{AsksOnWire, Hears, Posts, Reads, Receives, BodyTellsReply, ReadingStands, WritingStands, request_post};

use crate::outcomes::ScriptFailure;
use ifmap_elem::{Many, Text};
use ifmap_http::{Answered, Sent, Wire};
use ifmap_io::Link;
use ifmap_meta::ClientName;
use ifmap_replies::{Reply, ReplyError, read_reply};
use ifmap_requests::Request;
use ifmap_writing::write_request;
use std::alloc::Global;

/// Who asks, and which host.
#[derive(Drop)]
pub struct Caller {
    pub client: ClientName,
    pub host: Text,
}

/// A body that came, and the reply that it means.
#[derive(Drop)]
pub struct ReadReply {
    pub body: Many<u8>,
    pub reply: Reply,
}

/// Sends a request, and takes the answer to it.
pub fn ask<L: Link>(
    alloc: Global,
    caller: &Caller,
    request: &Request,
    wire: &mut Wire<L>,
) -> Result<ReadReply, ScriptFailure>
    requires unspent { IsFalse wire.old.spent }
    requires visible { IsTrue (is_visible caller.now.host) }
    ensures asks { let seen = wire_seen L.left L.held L.Source.faults L.Sink.faults in
        AsksOnWire caller.now request.now (seen wire.old) (seen wire.new) result }
    ensures later { let seen = wire_seen L.left L.held L.Source.faults L.Sink.faults in
        IsLaterWire (seen wire.old) (seen wire.new) }
{
    match post(alloc, caller, request, wire) {
        Ok(()) => receive(alloc, wire),
        Err(failure) => Err(failure),
    }
}

// Takes an answer.
fn receive<L: Link>(alloc: Global, wire: &mut Wire<L>) -> Result<ReadReply, ScriptFailure>
    requires { IsFalse wire.old.spent }
    ensures hears { let seen = wire_seen L.left L.held L.Source.faults L.Sink.faults in
        Hears (seen wire.old) (seen wire.new) result }
    ensures unwritten { let seen = wire_seen L.left L.held L.Source.faults L.Sink.faults in
        WritingStands (seen wire.old) (seen wire.new) }
{
    match read_body(alloc, wire) {
        Ok(body) => reply_with_body(alloc, body),
        Err(failure) => Err(failure),
    }
}

// A body with the reply that it means.
fn reply_with_body(alloc: Global, body: Many<u8>) -> Result<ReadReply, ScriptFailure>
    ensures { BodyTellsReply body result }
{
    match reply_in(alloc, &body) {
        Ok(reply) => Ok(ReadReply { body, reply }),
        Err(failure) => Err(failure),
    }
}

// Sends a request.
fn post<L: Link>(
    alloc: Global,
    caller: &Caller,
    request: &Request,
    wire: &mut Wire<L>,
) -> Result<(), ScriptFailure>
    requires { IsTrue (is_visible caller.now.host) }
    ensures posts { let seen = wire_seen L.left L.held L.Source.faults L.Sink.faults in
        Posts (request_post caller.now request.now) (seen wire.old) (seen wire.new) result }
    ensures unread { let seen = wire_seen L.left L.held L.Source.faults L.Sink.faults in
        ReadingStands (seen wire.old) (seen wire.new) }
{
    let body = write_request(alloc, request)?;
    match wire.send_post(alloc, &caller.host, &caller.client, body.as_slice()) {
        Sent::Done => Ok(()),
        Sent::WriteFault => Err(ScriptFailure::LinkFault),
        Sent::NoMemory => Err(ScriptFailure::NoMemory),
    }
}

// Takes the body of an answer.
fn read_body<L: Link>(alloc: Global, wire: &mut Wire<L>) -> Result<Many<u8>, ScriptFailure>
    requires { IsFalse wire.old.spent }
    ensures receives { let seen = wire_seen L.left L.held L.Source.faults L.Sink.faults in
        Receives (seen wire.old) (seen wire.new) result }
    ensures unwritten { let seen = wire_seen L.left L.held L.Source.faults L.Sink.faults in
        WritingStands (seen wire.old) (seen wire.new) }
{
    match wire.read_answer(alloc) {
        Answered::Body(body) => Ok(body),
        Answered::Status(_) => Err(ScriptFailure::BadReply),
        Answered::Ended => Err(ScriptFailure::LinkEnded),
        Answered::NotHttp => Err(ScriptFailure::BadReply),
        Answered::ReadFault => Err(ScriptFailure::LinkFault),
        Answered::NoMemory => Err(ScriptFailure::NoMemory),
    }
}

// The reply that a body means.
fn reply_in(alloc: Global, body: &Many<u8>) -> Result<Reply, ScriptFailure>
    ensures { Reads body.now result }
{
    match read_reply(alloc, body.as_slice()) {
        Ok(reply) => Ok(reply),
        Err(ReplyError::NotAReply) => Err(ScriptFailure::BadReply),
        Err(ReplyError::NoMemory) => Err(ScriptFailure::NoMemory),
    }
}
