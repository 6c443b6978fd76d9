//! A source that fails where an answer is still due: each answer is written and handed on before the
//! next frame is read.
ghost use Rattle.std.specs.Prelude.{None};

use crate::scripts::{FOUND, PUBLISH_AND_FIND};
use ifmap_io::{Failed, Sink, Source};
use ifmap_server::replay;
use std::alloc::Global;
use std::cell::Cell;
use std::test::Fail;

// How many answers were handed on.
type Answers = Cell<u64>;

// A piece of a script is given only once so many answers were handed on.
#[derive(Drop)]
struct PacedSource<'a> {
    pieces: &'a [(u64, &'a str)],
    given: usize,
    handed_on: &'a Answers,
    faults: u64,
}

impl<'a> Source for PacedSource<'a> {
    ghost left = { λ _. None };

    ghost faults = { λ source. source.faults };

    fn read(&mut self, room: &mut [u8]) -> Result<usize, Failed> {
        let Some((due, piece)) = self.pieces.get(self.given) else {
            return Ok(0);
        };
        if *due != self.handed_on.get() || piece.len() > room.len() {
            self.faults = self.faults.saturating_add(1);
            return Err(Failed);
        }
        room[..piece.len()].copy_from_slice(piece.as_bytes());
        self.given += 1;
        Ok(piece.len())
    }
}

// Counts what was handed on: an answer each time that something was written before.
#[derive(Drop)]
struct PacedSink<'a> {
    held: Vec<u8>,
    is_written: bool,
    handed_on: &'a Answers,
    faults: u64,
}

impl<'a> Sink for PacedSink<'a> {
    ghost held = { λ _. None };

    ghost faults = { λ sink. sink.faults };

    fn write_all(&mut self, bytes: &[u8]) -> Result<(), Failed> {
        if self.held.extend_from_slice(bytes).is_err() {
            self.faults = self.faults.saturating_add(1);
            return Err(Failed);
        }
        self.is_written = true;
        Ok(())
    }

    fn flush(&mut self) -> Result<(), Failed> {
        if self.is_written {
            self.is_written = false;
            self.handed_on.set(self.handed_on.get().saturating_add(1));
        }
        Ok(())
    }
}

// Where each frame of a script begins.
fn cuts_of(alloc: Global, script: &str) -> Result<Vec<usize>, Fail> {
    let mut cuts = Vec::new(alloc);
    for (place, c) in script.char_indices() {
        if c == '@' {
            cuts.push(place)?;
        }
    }
    Ok(cuts)
}

// Each frame of a script in two pieces, its line and its body, with how many answers are due before it.
fn pieces_of<'a>(alloc: Global, script: &'a str) -> Result<Vec<(u64, &'a str)>, Fail> {
    let cuts = cuts_of(alloc, script)?;
    let mut pieces = Vec::new(alloc);
    for (i, start) in cuts.iter().enumerate() {
        let end = cuts.get(i + 1).copied().unwrap_or(script.len());
        let frame = script.get(*start..end).ok_or("no frame")?;
        let (line, body) = frame.split_at_checked(20).ok_or("a short frame")?;
        pieces.push((i as u64, line))?;
        pieces.push((i as u64, body))?;
    }
    Ok(pieces)
}

// The status of a replay of these pieces, and whether it answered as wanted, each answer handed on.
fn replay_of(alloc: Global, pieces: &[(u64, &str)], wanted: &str) -> (u8, bool) {
    let handed_on = Cell::new(0);
    let mut source = PacedSource {
        pieces,
        given: 0,
        handed_on: &handed_on,
        faults: 0,
    };
    let mut sink = PacedSink {
        held: Vec::new(alloc),
        is_written: false,
        handed_on: &handed_on,
        faults: 0,
    };
    let status = replay(alloc, &mut source, &mut sink);
    (
        status,
        sink.held.as_slice() == wanted.as_bytes() && handed_on.get() == 3,
    )
}

#[test]
fn an_answer_is_handed_on_before_the_next_frame_is_read(rt: HostRuntime) -> Result<(), Fail> {
    let alloc = rt.alloc();
    let pieces = pieces_of(alloc, PUBLISH_AND_FIND)?;
    assert_eq!(rt; replay_of(alloc, &pieces, FOUND), (0, true));
    Ok(())
}
