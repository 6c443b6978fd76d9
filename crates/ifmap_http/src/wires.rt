//! Wires: HTTP over a link.
ghost use Rattle.std.specs.Prelude.{◌≡◌, ◌≤◌, ◌++◌, ℕ, List, Some, false, [], IfSome, IsFalse, IsTrue, drop, length, not};
ghost use Rattle.std.specs.Io.KnownBytes.{prepend_known};
ghost use Rattle.ifmap_io.specs.Causes.{Rose};
ghost use Rattle.ifmap_heads.specs.Answers.{sized};
ghost use Rattle.ifmap_heads.specs.Messages.{answer_bytes, is_answer_status, is_visible, post_bytes};
ghost use Rattle.ifmap_heads.specs.Starts.{HasAnswerHead, HasPostHead};
ghost use Rattle.ifmap_input.specs.Inputs.{UsesOneSide};
ghost use Rattle.ifmap_http.specs.Outcomes.{GetsAnswer, GetsByReading, GetsPost, Sends, TakesPost, is_answered, is_posted};

use crate::bodies::{Unread, take_body};
use crate::heads::{AwaitedAnswer, AwaitedPost, await_answer, await_post};
use http::StatusCode;
use ifmap_elem::{Many, Text};
use ifmap_heads::{PostTerms, answer_message, post_message};
use ifmap_input::Input;
use ifmap_io::{Link, send_bytes};
use ifmap_meta::ClientName;
use std::alloc::Global;
use std::marker::Model;

/// A post: who posts, what, and whether the connection is to be closed after the answer.
#[derive(Debug, Drop)]
pub struct Post {
    pub client: ClientName,
    pub body: Many<u8>,
    pub close: bool,
}

/// What `read_post` answers.
#[derive(Debug, Drop)]
pub enum Got {
    /// A post. What comes after its body is left.
    Posted(Post),
    /// The link gave end of input before the first byte of a post.
    Ended,
    /// It gave end of input inside a post.
    Truncated,
    /// A post with this status: 400, 403, 405, 411 or 413.
    Status(u16),
    /// The link's reading failed, and its count of reading rose.
    ReadFault,
    /// Want of memory.
    NoMemory,
}

/// What `read_answer` answers.
#[derive(Debug, Drop)]
pub enum Answered {
    /// The body of an answer with status 200. What comes after it is left.
    Body(Many<u8>),
    /// An answer with another status. What comes after its head is left.
    Status(u16),
    /// The link gave end of input before the answer was whole.
    Ended,
    /// The bytes are no answer, or one that tells no length.
    NotHttp,
    /// The link's reading failed, and its count of reading rose.
    ReadFault,
    /// Want of memory.
    NoMemory,
}

/// What the calls that write answer.
#[derive(Clone, Copy, Debug, PartialEq, Eq)]
pub enum Sent {
    /// All of the message was written.
    Done,
    /// The link's writing failed, and its count of writing rose: a prefix of the message was written.
    WriteFault,
    /// Want of memory. Nothing was written.
    NoMemory,
}

/// HTTP over a link. Contracts see the link, the bytes that were taken from it and not handed out, and
/// whether the wire is spent: once it is, it is not read again.
#[derive(Drop)]
pub struct Wire<L: Drop> {
    link: L,
    input: Input,
    spent: bool,
}

impl<L: Drop> Model for Wire<L> {
    ghost use Rattle.ifmap_http.specs.Wires.{Wired, wired_code};

    ghost Value = { Wired L };

    ghost coded = { wired_code L.code };

    ghost view = { λ wire. record { link = wire.link; taken = wire.input; spent = wire.spent } };
}

impl<L: Link> Wire<L> {
    /// A wire over that link. It has taken nothing, and is not spent. It takes no memory.
    pub fn new(alloc: Global, link: L) -> Wire<L>
        ensures { result ≡ record { link = link; taken = []; spent = false } }
    {
        Wire {
            link,
            input: Input::new(alloc),
            spent: false,
        }
    }

    /// The link. The bytes that were taken from it are dropped. It takes no memory.
    pub fn into_link(self) -> L
        ensures { result ≡ self.link }
    {
        let Wire {
            link,
            input: _,
            spent: _,
        } = self;
        link
    }

    /// The wire was read to where nothing more can be read of it.
    pub fn is_spent(&self) -> bool
        ensures { result ≡ self.now.spent }
    {
        self.spent
    }

    /// Reads a post: a head of at most 16,384 bytes and 64 fields, and a body of at most 10,000,000.
    /// After any other answer the wire is spent. Over a link that tells no bytes too, the body is
    /// within this limit, and a status is one that `write_answer` writes. A post that was taken whole
    /// before is handed out with no call of the link.
    pub fn read_post(&mut self, alloc: Global) -> Got
        requires { IsFalse self.old.spent }
        ensures takes { TakesPost L.left L.Source.faults L.outgoing self.old self.new result }
        ensures spent { self.new.spent ≡ not (is_posted result) }
    {
        let got = self.take_post(alloc);
        self.spent = !matches!(got, Got::Posted(_));
        got
    }

    /// Writes an answer: its head and its body in one write. The statuses are 200, 400, 403, 405, 411,
    /// 413, 503 and 507; the body is written with 200 alone, and any other status says that the
    /// connection will be closed, as `close` does.
    pub fn write_answer(&mut self, alloc: Global, status: u16, body: &[u8], close: bool) -> Sent
        requires { IsTrue (is_answer_status status) }
        ensures sends { Sends (L.held self.old.link) (L.held self.new.link) result
            (answer_bytes status body.now close) }
        ensures fault { result ≡ Sent.WriteFault
            → Rose (L.Sink.faults self.old.link) (L.Sink.faults self.new.link) }
        ensures side { UsesOneSide L.held L.Sink.faults L.incoming self.old.link self.new.link }
        ensures rest { self.new ≡ record self.old { link = self.new.link } }
    {
        let status = StatusCode::from_u16(status).unwrap();
        match answer_message(alloc, status, body, close) {
            Ok(message) => send(&mut self.link, &message),
            Err(_) => Sent::NoMemory,
        }
    }

    /// Writes a post of that client to that host, its head and its body in one write.
    pub fn send_post(
        &mut self,
        alloc: Global,
        host: &Text,
        client: &ClientName,
        body: &[u8],
    ) -> Sent
        requires { IsTrue (is_visible host.now) }
        ensures sends { Sends (L.held self.old.link) (L.held self.new.link) result
            (post_bytes host.now client.now body.now) }
        ensures fault { result ≡ Sent.WriteFault
            → Rose (L.Sink.faults self.old.link) (L.Sink.faults self.new.link) }
        ensures side { UsesOneSide L.held L.Sink.faults L.incoming self.old.link self.new.link }
        ensures rest { self.new ≡ record self.old { link = self.new.link } }
    {
        match post_message(alloc, host.as_bytes(), client.text().as_bytes(), body) {
            Ok(message) => send(&mut self.link, &message),
            Err(_) => Sent::NoMemory,
        }
    }

    /// Reads an answer: a head of at most 16,384 bytes and 64 fields, and, where its status is 200, a
    /// body of at most 110,000,000. After any answer but `Body` and `Status` the wire is spent.
    pub fn read_answer(&mut self, alloc: Global) -> Answered
        requires { IsFalse self.old.spent }
        ensures reads { IfSome (prepend_known self.old.taken (L.left self.old.link))
            (λ left. GetsAnswer left (prepend_known self.new.taken (L.left self.new.link)) result) }
        ensures fault { result ≡ Answered.ReadFault
            → Rose (L.Source.faults self.old.link) (L.Source.faults self.new.link) }
        ensures side { UsesOneSide L.left L.Source.faults L.outgoing self.old.link self.new.link }
        ensures spent { self.new.spent ≡ not (is_answered result) }
    {
        let answered = self.take_answer(alloc);
        self.spent = !matches!(answered, Answered::Body(_) | Answered::Status(_));
        answered
    }

    // Reads a post, whatever the wire is.
    fn take_post(&mut self, alloc: Global) -> Got
        ensures { TakesPost L.left L.Source.faults L.outgoing self.old self.new result }
    {
        match await_post(alloc, &mut self.input, &mut self.link) {
            AwaitedPost::Taken(size, terms) => self.take_posted(alloc, size, terms),
            AwaitedPost::Refused(status) => Got::Status(status),
            AwaitedPost::Ended => Got::Ended,
            AwaitedPost::Truncated => Got::Truncated,
            AwaitedPost::ReadFault => Got::ReadFault,
            AwaitedPost::NoMemory => Got::NoMemory,
        }
    }

    // Takes the body of a post after a head of that size.
    fn take_posted(&mut self, alloc: Global, size: usize, terms: PostTerms) -> Got
        requires { HasPostHead self.old.taken size terms }
        ensures reads { (all : List ℕ) → L.left self.old.link ≡ Some all
            → GetsPost (self.old.taken ++ all) (prepend_known self.new.taken
            (L.left self.new.link)) result }
        ensures by_reading { GetsByReading L.left L.Source.faults L.outgoing self.old.link
            self.new.link result }
        ensures quiet { terms.size ≤ length (drop size self.old.taken)
            → self.new.link ≡ self.old.link }
    {
        self.input.advance(size);
        match take_body(alloc, &mut self.input, &mut self.link, terms.size) {
            Ok(body) => Got::Posted(Post {
                client: terms.client,
                body: Many(body),
                close: terms.close,
            }),
            Err(Unread::Truncated) => Got::Truncated,
            Err(Unread::ReadFault) => Got::ReadFault,
            Err(Unread::NoMemory) => Got::NoMemory,
        }
    }

    // Reads an answer, whatever the wire is.
    fn take_answer(&mut self, alloc: Global) -> Answered
        ensures reads { IfSome (prepend_known self.old.taken (L.left self.old.link))
            (λ left. GetsAnswer left (prepend_known self.new.taken (L.left self.new.link)) result) }
        ensures fault { result ≡ Answered.ReadFault
            → Rose (L.Source.faults self.old.link) (L.Source.faults self.new.link) }
        ensures side { UsesOneSide L.left L.Source.faults L.outgoing self.old.link self.new.link }
    {
        match await_answer(&mut self.input, &mut self.link) {
            AwaitedAnswer::Sized(size, body) => return self.take_answered(alloc, size, body),
            AwaitedAnswer::Refused(size, status) => {
                self.input.advance(size);
                return Answered::Status(status);
            }
            AwaitedAnswer::NotHttp => return Answered::NotHttp,
            AwaitedAnswer::Ended => return Answered::Ended,
            AwaitedAnswer::ReadFault => return Answered::ReadFault,
            AwaitedAnswer::NoMemory => return Answered::NoMemory,
        }
    }

    // Takes the body of an answer after a head of that size.
    fn take_answered(&mut self, alloc: Global, size: usize, body: usize) -> Answered
        requires { HasAnswerHead self.old.taken size (sized body) }
        ensures reads { (all : List ℕ) → L.left self.old.link ≡ Some all
            → GetsAnswer (self.old.taken ++ all) (prepend_known self.new.taken
            (L.left self.new.link)) result }
        ensures fault { result ≡ Answered.ReadFault
            → Rose (L.Source.faults self.old.link) (L.Source.faults self.new.link) }
        ensures side { UsesOneSide L.left L.Source.faults L.outgoing self.old.link self.new.link }
    {
        self.input.advance(size);
        match take_body(alloc, &mut self.input, &mut self.link, body) {
            Ok(body) => return Answered::Body(Many(body)),
            Err(Unread::Truncated) => return Answered::Ended,
            Err(Unread::ReadFault) => return Answered::ReadFault,
            Err(Unread::NoMemory) => return Answered::NoMemory,
        }
    }
}

// Writes a message in one write, and hands it on.
fn send<L: Link>(link: &mut L, message: &[u8]) -> Sent
    ensures sends { Sends (L.held link.old) (L.held link.new) result message.now }
    ensures fault { result ≡ Sent.WriteFault
        → Rose (L.Sink.faults link.old) (L.Sink.faults link.new) }
    ensures side { UsesOneSide L.held L.Sink.faults L.incoming link.old link.new }
{
    match send_bytes(link, message) {
        Ok(()) => Sent::Done,
        Err(_) => Sent::WriteFault,
    }
}
