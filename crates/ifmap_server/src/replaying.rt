//! Replays: the frames of a source, answered one after another.
ghost use Rattle.std.specs.Prelude.{◌≡◌, ◌≢◌, ◌≤◌, [], ◌++◌, length, IfErr, IfOk, IfSome, None, OnOk, Some};
ghost use Rattle.std.specs.Io.KnownBytes.{Appends, IsAtEnd, Keeps};
ghost use Rattle.ifmap_io.specs.Causes.{Rose};
ghost use Rattle.ifmap_input.specs.Scripts.{longest_script};
ghost use Rattle.ifmap_server.specs.declared.headers.Header.{Header};
ghost use Rattle.ifmap_server.specs.Awaited.{IsAwaited};
ghost use Rattle.ifmap_requests.specs.Fit.{IsFitRequest};
ghost use Rattle.ifmap_server.specs.Output.{AppendsPrefix, fault_line, step_request};
ghost use Rattle.ifmap_server.specs.Replayed.{ReplayPromises};
ghost use Rattle.ifmap_server.specs.Taking.{TakesBytes};
ghost use Rattle.ifmap_server.specs.Ends.{IsLaterMoment, source_and_sink};
ghost use Rattle.ifmap_server.specs.Turns.{BeginsNone, IsAnswered, IsFramed, IsReplayTurn, asking_of, replay_beginning};

use crate::errors::ReplayError;
use crate::headers::{Header, header_of};
use crate::replies::AnswerText;
use crate::sending::send;
use crate::waiting::{await_bytes, await_line};
use ifmap_core::{Ask, Core, Event, SESSION_SECONDS};
use ifmap_input::{Input, LONGEST_SCRIPT};
use ifmap_io::{Sink, Source};
use ifmap_requests::laws::{bodies_have_one_meaning, bodies_mean_fit_requests};
use ifmap_requests::{Refusal, Request, read_request};
use ifmap_steps::Steps;
use std::alloc::Global;
use std::marker::Model;
use std::sync::ledger::Ledger;

/// A frame whose bytes have all been taken: its header, and where its body stands in what is pending.
#[derive(Drop)]
pub struct TakenFrame {
    pub header: Header,
    pub start: usize,
    pub end: usize,
}

/// Takes the next frame, and leaves it pending; `None` at the end of the source. The frame begins at
/// that offset of the script.
#[tactic(auto, using(ifmap_input::specs::InputLaws::takes_nothing, ifmap_input::specs::InputLaws::takes_more, ifmap_io::specs::Rises::rose_since, crate::proofs::Framing::no_line_none))]
pub fn next_frame<S: Source>(
    alloc: Global,
    input: &mut Input,
    offset: u64,
    source: &mut S,
) -> Result<Option<TakenFrame>, ReplayError>
    requires { offset ≤ longest_script }
    ensures takes { TakesBytes S.left S.faults (source.old, input.old) (source.new, input.new)
        result }
    ensures frame { IfOk result (λ found. IfSome found
        (λ framed. IsFramed offset input.new framed)) }
    ensures end { result ≡ Ok None → IsAtEnd (S.left source.new) × (input.new ≡ []) }
    ensures fault { result ≡ Err ReplayError.FrameFault → IfSome (S.left source.new) (λ rest.
        (input.new ++ rest ≢ []) × BeginsNone offset (input.new ++ rest)) }
    ensures read { result ≡ Err ReplayError.ReadFault → IsAwaited offset input.new }
    ensures cause { result ≢ Err ReplayError.WriteFault }
{
    let Some(line) = await_line(input, source)? else {
        return Ok(None);
    };
    let Some(header) = header_of(alloc, &input.pending_bytes()[..line])? else {
        return Err(ReplayError::FrameFault);
    };
    let start = line + 1;
    let end = start + header.size as usize;
    if end as u64 > LONGEST_SCRIPT - offset || !await_bytes(input, source, end)? {
        return Err(ReplayError::FrameFault);
    }
    Ok(Some(TakenFrame { header, start, end }))
}

/// The text of the answer to a frame: the machine's to a request, the code of a defect, or that the
/// body is unreadable.
pub fn answer_frame<L: Ledger>(
    alloc: Global,
    core: &mut Core,
    header: Header,
    body: &[u8],
    steps: &mut Steps<L>,
) -> Result<AnswerText, ReplayError>
    requires { header.size ≡ length body.now }
    ensures answered { IfOk result (λ text. IsAnswered core.old core.new header body.now text) }
    ensures cause { IfErr result (λ e. e ≡ ReplayError.NoMemory) }
{
    bodies_mean_fit_requests();
    match read_request(alloc, body) {
        Ok(request) => answer_request(alloc, core, header, request, steps),
        Err(Refusal::Named(code)) => Ok(AnswerText::refusal(alloc, code)?),
        Err(Refusal::Unreadable) => Ok(AnswerText::unreadable_answer(alloc)?),
        Err(Refusal::NoMemory) => Err(ReplayError::NoMemory),
    }
}

// The text of the answer to a request that came with a header.
fn answer_request<L: Ledger>(
    alloc: Global,
    core: &mut Core,
    header: Header,
    request: Request,
    steps: &mut Steps<L>,
) -> Result<AnswerText, ReplayError>
    requires { IsFitRequest request }
    ensures state { OnOk result (core.new
        ≡ (step_request core.old (asking_of header) request).0) }
    ensures text { IfOk result (λ text.
        text ≡ (step_request core.old (asking_of header) request).1) }
    ensures cause { IfErr result (λ e. e ≡ ReplayError.NoMemory) }
{
    let Header {
        moment,
        client,
        random,
        size,
    } = header;
    // The look tells the proof that the client has a name, as the event asks.
    let _ = client.text();
    let event = Event {
        moment,
        client,
        random,
        again: false,
        bytes: size,
        ask: Ask::Request(request),
    };
    let answer = core.step(alloc, &event, steps)?;
    Ok(AnswerText::new(alloc, &answer)?)
}

/// What a turn did.
#[derive(Clone, Copy, Debug, PartialEq, Eq)]
pub enum ReplayTurn {
    /// A frame was answered.
    Answered,
    /// There is no further frame: the source is at its end.
    Ended,
}

/// A replay: the machine, what is pending, and the offset of the next frame.
#[derive(Drop)]
pub struct Replay {
    core: Core,
    input: Input,
    offset: u64,
}

impl Model for Replay {
    ghost use Rattle.std.specs.Prelude.{◌≤◌};
    ghost use Rattle.std.specs.Coded.{codes};
    ghost use Rattle.ifmap_core.specs.contracts.machine.Core as the_core;
    ghost use Rattle.ifmap_input.specs.Scripts.{longest_script};
    ghost use Rattle.ifmap_server.specs.Turns.{Replaying};

    ghost Value = { Replaying };

    ghost coded = { Prim.hlevel (codes, the_core.the_row.coded) };

    ghost view = { λ replay. record {
      state = replay.core;
      pending = replay.input;
      offset = replay.offset;
    } };

    ghost invariant = { λ replay. replay.offset ≤ longest_script };
}

impl Replay {
    /// Nothing taken yet, before the opening state.
    pub fn new(alloc: Global) -> Replay
        ensures { result ≡ replay_beginning }
    {
        Replay {
            core: Core::new(alloc, SESSION_SECONDS),
            input: Input::new(alloc),
            offset: 0,
        }
    }

    /// Answers the next frame.
    pub fn turn<S: Source, K: Sink, L: Ledger>(
        &mut self,
        alloc: Global,
        source: &mut S,
        sink: &mut K,
        steps: &mut Steps<L>,
    ) -> Result<ReplayTurn, ReplayError>
        ensures turn { IsReplayTurn result
            (source_and_sink (S.left source.old) (S.faults source.old) (K.held sink.old)
            (K.faults sink.old))
            (source_and_sink (S.left source.new) (S.faults source.new) (K.held sink.new)
            (K.faults sink.new))
            self.old self.new }
        ensures later { IsLaterMoment
            (source_and_sink (S.left source.old) (S.faults source.old) (K.held sink.old)
            (K.faults sink.old))
            (source_and_sink (S.left source.new) (S.faults source.new) (K.held sink.new)
            (K.faults sink.new)) }
    {
        let Some(framed) = next_frame(alloc, &mut self.input, self.offset, source)? else {
            return Ok(ReplayTurn::Ended);
        };
        let TakenFrame { header, start, end } = framed;
        let body = &self.input.pending_bytes()[start..end];
        let text = answer_frame(alloc, &mut self.core, header, body, steps)?;
        text.send(sink)?;
        self.input.advance(end);
        self.offset += end as u64;
        Ok(ReplayTurn::Answered)
    }

    /// Answers frames until the replay ends, and tells the offset of a fault.
    pub fn run<S: Source, K: Sink, L: Ledger>(
        &mut self,
        alloc: Global,
        source: &mut S,
        sink: &mut K,
        steps: &mut Steps<L>,
    ) -> Result<(), ReplayError>
        requires { self.old ≡ replay_beginning }
        ensures { ReplayPromises result
            (source_and_sink (S.left source.old) (S.faults source.old) (K.held sink.old)
            (K.faults sink.old))
            (source_and_sink (S.left source.new) (S.faults source.new) (K.held sink.new)
            (K.faults sink.new)) }
    {
        bodies_have_one_meaning();
        'frames: loop {
            match self.turn(alloc, source, sink, steps) {
                Ok(ReplayTurn::Answered) => {}
                Ok(ReplayTurn::Ended) => return Ok(()),
                Err(error) => {
                    return match error {
                        ReplayError::FrameFault => Err(self.tell_fault(alloc, sink)),
                        other => Err(other),
                    };
                }
            }
        }
    }

    // Tells the offset of the fault.
    fn tell_fault<K: Sink>(&self, alloc: Global, sink: &mut K) -> ReplayError
        ensures told { result ≡ ReplayError.FrameFault →
            Appends (K.held sink.old) (K.held sink.new) (fault_line (Some self.now.offset)) }
        ensures write { result ≡ ReplayError.WriteFault →
            AppendsPrefix (K.held sink.old) (K.held sink.new) (fault_line (Some self.now.offset)) }
        ensures memory { result ≡ ReplayError.NoMemory → Keeps (K.held sink.old) (K.held sink.new) }
        ensures only { result ≢ ReplayError.ReadFault }
        ensures later { K.faults sink.old ≤ K.faults sink.new }
        ensures rose { result ≡ ReplayError.WriteFault
            → Rose (K.faults sink.old) (K.faults sink.new) }
    {
        let offset = self.offset;
        let Ok(line) = format!(in alloc; "!{offset}\n") else {
            return ReplayError::NoMemory;
        };
        match send(sink, line.as_bytes()) {
            Ok(()) => ReplayError::FrameFault,
            Err(error) => error,
        }
    }
}
