//! Scripts of a client, line by line.
ghost use Rattle.std.specs.Prelude.{◌≡◌, ◌≤◌, ◌<◌, ◌+◌, length, Err, OnErr, IsFalse, IsTrue};
ghost use Rattle.ifmap_http.specs.ifmap_heads.Messages.{is_visible};
ghost use Rattle.ifmap_http.specs.Wires.{wire_seen};
ghost use Rattle.ifmap_io.specs.Causes.{Rose};
ghost use Rattle.ifmap_input.specs.Scripts.{longest_script};
ghost use Rattle.ifmap_client_script.specs.Ends.{IsLaterInRun, source_and_ports, ports};
ghost use Rattle.ifmap_client_script.specs.Outlets.{AreOutletsLater, AreSame, CanAsk};
ghost use Rattle.ifmap_client_script.specs.Promises.{IsCarriedOut};
ghost use Rattle.ifmap_client_script.specs.Turns.{DoesNext, IsBeginning, IsNextLine, ReadsAt, ReadsNext, IsScriptTurn};

use crate::clients::Client;
use crate::exchanges::Caller;
use crate::lines::Lines;
use crate::outcomes::{Outcome, ScriptFailure, outcome_at_line};
use crate::outlets::{Outlets, SinkAndWires};
use ifmap_client::laws::lines_mean_one_thing;
use ifmap_client::{Line, line_of};
use ifmap_elem::{Copied, Text};
use ifmap_http::Wire;
use ifmap_io::{Link, Sink, Source};
use ifmap_meta::ClientName;
use std::alloc::Global;
use std::marker::Model;

/// What a turn did.
#[derive(Clone, Copy, Debug, PartialEq, Eq)]
pub enum ScriptTurn {
    /// A line was carried out.
    Carried,
    /// There is no further line: the source is at its end.
    Ended,
}

/// A script that is carried out: what the client knows, what is pending, and the offset and the
/// number of the next line.
#[derive(Drop)]
pub struct Script {
    client: Client,
    lines: Lines,
    offset: u64,
    line: u64,
}

/// Carries out the lines of a script: each request is sent, a poll over the second wire and the
/// others over the first, and its reply is written to the sink; each set that is asked for is written
/// too.
pub fn run_script<S: Source, K: Sink, A: Link, B: Link>(
    alloc: Global,
    client: &ClientName,
    host: &Text,
    source: &mut S,
    sink: &mut K,
    first: &mut Wire<A>,
    second: &mut Wire<B>,
) -> Outcome
    requires visible { IsTrue (is_visible host.now) }
    requires first { IsFalse first.old.spent }
    requires second { IsFalse second.old.spent }
    ensures { let seen = wire_seen A.left A.held A.Source.faults A.Sink.faults in
        let polls_seen = wire_seen B.left B.held B.Source.faults B.Sink.faults in
        IsCarriedOut (record { client = client.now; host = host.now })
        (source_and_ports (S.left source.old) (S.faults source.old)
        (ports (K.held sink.old) (K.faults sink.old) (seen first.old) (polls_seen second.old)))
        (source_and_ports (S.left source.new) (S.faults source.new)
        (ports (K.held sink.new) (K.faults sink.new) (seen first.new) (polls_seen second.new)))
        result }
{
    let Ok(client) = client.copy(alloc) else {
        return Outcome::NoMemory;
    };
    let Ok(host) = host.copy(alloc) else {
        return Outcome::NoMemory;
    };
    let mut script = Script::new(alloc);
    let caller = Caller { client, host };
    let mut outlets = SinkAndWires {
        sink,
        first,
        second,
    };
    script.run(alloc, &caller, source, &mut outlets)
}

impl Model for Script {
    ghost use Rattle.std.specs.Prelude.{◌≤◌, ◌+◌};
    ghost use Rattle.std.specs.Coded.{codes};
    ghost use Rattle.ifmap_search.specs.contracts.results.Entry as the_entry;
    ghost use Rattle.ifmap_input.specs.Scripts.{longest_script};
    ghost use Rattle.ifmap_client_script.specs.Turns.{Scripting};

    ghost Value = { Scripting };

    ghost coded = { Prim.hlevel (codes, the_entry.the_row.coded) };

    ghost view = { λ script. record {
      client = script.client;
      pending = script.lines;
      offset = script.offset;
      line = script.line;
    } };

    ghost invariant = { λ script. (script.offset ≤ longest_script + 1)
        × (script.line ≤ script.offset + 1) };
}

impl Script {
    /// Nothing taken yet.
    pub fn new(alloc: Global) -> Script
        ensures { IsBeginning result }
    {
        Script {
            client: Client::new(alloc),
            lines: Lines::new(alloc),
            offset: 0,
            line: 1,
        }
    }

    /// Carries out lines until the script ends.
    pub fn run<S: Source, O: Outlets>(
        &mut self,
        alloc: Global,
        caller: &Caller,
        source: &mut S,
        outlets: &mut O,
    ) -> Outcome
        requires beginning { IsBeginning self.old }
        requires can_ask { CanAsk caller.now (O.seen outlets.old) }
        ensures carried { IsCarriedOut caller.now
            (source_and_ports (S.left source.old) (S.faults source.old) (O.seen outlets.old))
            (source_and_ports (S.left source.new) (S.faults source.new) (O.seen outlets.new))
            result }
        ensures same { AreSame (O.loans outlets.old) (O.loans outlets.new) }
    {
        'lines: loop {
            match self.turn(alloc, caller, source, outlets) {
                Ok(ScriptTurn::Carried) => {}
                Ok(ScriptTurn::Ended) => return Outcome::Done,
                Err(failure) => return outcome_at_line(failure, self.line),
            }
        }
    }

    /// Carries the next line out. Where the script ends, the number stays that of the line.
    pub fn turn<S: Source, O: Outlets>(
        &mut self,
        alloc: Global,
        caller: &Caller,
        source: &mut S,
        outlets: &mut O,
    ) -> Result<ScriptTurn, ScriptFailure>
        requires { CanAsk caller.now (O.seen outlets.old) }
        ensures line { OnErr result (self.new.line ≡ self.old.line) }
        ensures turns { IsScriptTurn caller.now
            (source_and_ports (S.left source.old) (S.faults source.old) (O.seen outlets.old))
            (source_and_ports (S.left source.new) (S.faults source.new) (O.seen outlets.new))
            self.old self.new result }
        ensures later { IsLaterInRun
            (source_and_ports (S.left source.old) (S.faults source.old) (O.seen outlets.old))
            (source_and_ports (S.left source.new) (S.faults source.new) (O.seen outlets.new)) }
        ensures same { AreSame (O.loans outlets.old) (O.loans outlets.new) }
    {
        lines_mean_one_thing();
        match next_line(alloc, &mut self.lines, source, self.offset) {
            Ok(Some(next)) => self.do_next(alloc, caller, next, outlets),
            Ok(None) => Ok(ScriptTurn::Ended),
            Err(failure) => Err(failure),
        }
    }

    // Carries out the line at the front of what is pending.
    fn do_next<O: Outlets>(
        &mut self,
        alloc: Global,
        caller: &Caller,
        next: NextLine,
        outlets: &mut O,
    ) -> Result<ScriptTurn, ScriptFailure>
        requires can_ask { CanAsk caller.now (O.seen outlets.old) }
        requires line { IsNextLine self.old.offset self.old.pending.bytes next }
        ensures does { DoesNext caller.now next (O.seen outlets.old) (O.seen outlets.new)
            self.old self.new result }
        ensures later { AreOutletsLater O.seen O.loans outlets.old outlets.new }
    {
        let NextLine { place, line } = next;
        match self.client.do_line(alloc, caller, line, outlets) {
            Ok(()) => {
                self.lines.advance(place + 1);
                self.offset += place as u64 + 1;
                self.line += 1;
                Ok(ScriptTurn::Carried)
            }
            Err(failure) => Err(failure),
        }
    }
}

// A line at the front of what is pending: where its newline stands, and what it means.
#[derive(Drop)]
pub(crate) struct NextLine {
    pub(crate) place: usize,
    pub(crate) line: Line,
}

// Waits for the next line, which begins at that offset, and reads it; `None` at the source's end.
#[tactic(auto, using(crate::proofs::Beginnings::reads_line, crate::proofs::Beginnings::reads_err, crate::proofs::Beginnings::reads_no_fault))]
fn next_line<S: Source>(
    alloc: Global,
    lines: &mut Lines,
    source: &mut S,
    offset: u64,
) -> Result<Option<NextLine>, ScriptFailure>
    requires { offset ≤ longest_script + 1 }
    ensures reads { ReadsNext (S.left source.old) (S.left source.new) offset lines.old lines.new
        result }
    ensures fault { result ≡ Err ScriptFailure.ReadFault
        → Rose (S.faults source.old) (S.faults source.new) }
    ensures later { S.faults source.old ≤ S.faults source.new }
{
    match lines.await_line(source, offset) {
        Ok(Some(place)) => next_line_at(alloc, lines.pending_bytes(), place),
        Ok(None) => Ok(None),
        Err(failure) => Err(failure),
    }
}

// The line whose newline stands at that place.
fn next_line_at(
    alloc: Global,
    pending: &[u8],
    place: usize,
) -> Result<Option<NextLine>, ScriptFailure>
    requires { place < length pending.now }
    ensures { ReadsAt pending.now place result }
{
    match line_of(alloc, &pending[..place]) {
        Ok(Some(line)) => Ok(Some(NextLine { place, line })),
        Ok(None) => Err(ScriptFailure::BadLine),
        Err(_) => Err(ScriptFailure::NoMemory),
    }
}
