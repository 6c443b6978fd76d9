//! The lines of a script, as they come from a source.
ghost use Rattle.std.specs.Prelude.{◌≡◌, ◌≤◌, ◌<◌, ◌+◌, drop, false, true, length, IfNone, IfSome, OnOk, Err};
ghost use Rattle.std.specs.Bool.{OnFalse, OnTrue};
ghost use Rattle.ifmap_io.specs.Causes.{Rose};
ghost use Rattle.ifmap_input.specs.Scripts.{longest_script};
ghost use Rattle.ifmap_client_script.specs.TakenBytes.{WaitsForLine, Fills, Gathers, IsClosed, IsLineEnd, IsGathered, NeedsMore, LooksForLine, nothing_taken, with_last_newline};
ghost use Rattle.ifmap_client_script.specs.Scripts.{AwaitsLine, HasNoNewline, IsWithinLineLimits};

use crate::outcomes::ScriptFailure;
use ifmap_client::LINE_LIMIT;
use ifmap_input::{Input, InputError, LONGEST_SCRIPT};
use ifmap_io::Source;
use std::alloc::{AllocError as NoMemory, Global};
use std::marker::Model;

/// What was taken from a source and not used yet. Where the source is at its end, a last line that
/// lacks its newline has it.
#[derive(Drop)]
pub struct Lines {
    input: Input,
    ended: bool,
}

impl Model for Lines {
    ghost use Rattle.ifmap_client_script.specs.TakenBytes.{IsClosed, TakenBytes};

    ghost Value = { TakenBytes };

    ghost view = { λ lines. record { bytes = lines.input; ended = lines.ended } };

    ghost invariant = { λ lines.
        IsClosed (record { bytes = lines.input; ended = lines.ended }) };
}

impl Lines {
    /// Nothing taken yet.
    pub fn new(alloc: Global) -> Lines
        ensures { result ≡ nothing_taken }
    {
        Lines {
            input: Input::new(alloc),
            ended: false,
        }
    }

    /// What was taken and not used yet.
    pub fn pending_bytes(&self) -> &[u8]
        ensures { result.now ≡ self.now.bytes }
    {
        self.input.pending_bytes()
    }

    /// Uses the first bytes up.
    pub fn advance(&mut self, count: usize)
        requires { count ≤ length self.old.bytes }
        ensures { self.new ≡ record self.old { bytes = drop count self.old.bytes } }
    {
        self.input.advance(count);
    }

    /// Waits for the newline of the next line, and answers its place; `None` where the source is at
    /// its end and nothing is pending. The line begins at that offset.
    #[tactic(auto, using(crate::proofs::Waiting::awaits_err, crate::proofs::Waiting::waits_for_line, crate::proofs::Waiting::looks_no_fault))]
    pub fn await_line<S: Source>(
        &mut self,
        source: &mut S,
        offset: u64,
    ) -> Result<Option<usize>, ScriptFailure>
        requires { offset ≤ longest_script + 1 }
        ensures awaits { WaitsForLine (S.left source.old) (S.left source.new) offset
            self.old self.new
            result }
        ensures fault { result ≡ Err ScriptFailure.ReadFault
            → Rose (S.faults source.old) (S.faults source.new) }
        ensures later { S.faults source.old ≤ S.faults source.new }
    {
        match self.gather(source, offset) {
            Ok(()) => self.line_at(offset),
            Err(failure) => Err(failure),
        }
    }

    // Takes from the source until a line is pending that begins at that offset, or none can come.
    #[tactic(auto, using(crate::proofs::Waiting::fetches_nothing, crate::proofs::Waiting::room_shrinks, ifmap_io::specs::Rises::rose_since))]
    fn gather<S: Source>(&mut self, source: &mut S, offset: u64) -> Result<(), ScriptFailure>
        requires { offset ≤ longest_script + 1 }
        ensures gathers { Gathers (S.left source.old) (S.left source.new) offset self.old self.new
            result }
        ensures fault { result ≡ Err ScriptFailure.ReadFault
            → Rose (S.faults source.old) (S.faults source.new) }
        ensures later { S.faults source.old ≤ S.faults source.new }
    {
        'line: while self.needs_more(offset) {
            match self.fill(source) {
                Ok(()) => {}
                Err(failure) => return Err(failure),
            }
        }
        Ok(())
    }

    // More is to be taken for the line that begins at that offset, and the source has not told its
    // end.
    fn needs_more(&self, offset: u64) -> bool
        requires { offset ≤ longest_script + 1 }
        ensures yes { OnTrue result (NeedsMore offset self.now) }
        ensures no { OnFalse result (IsGathered offset self.now) }
    {
        if self.ended {
            return false;
        }
        is_line_open(self.pending_bytes(), offset)
    }

    // The place of the newline of the line that begins at that offset, for which no more is to be
    // taken.
    #[tactic(auto, using(crate::proofs::Waiting::too_long))]
    fn line_at(&self, offset: u64) -> Result<Option<usize>, ScriptFailure>
        requires offset { offset ≤ longest_script + 1 }
        requires ready { IsGathered offset self.now }
        ensures { LooksForLine offset self.now result }
    {
        self.closes();
        match line_end(self.pending_bytes()) {
            Some(place) => {
                if is_within(place, offset) {
                    return Ok(Some(place));
                }
                Err(ScriptFailure::BadLine)
            }
            None => {
                if self.pending_bytes().is_empty() {
                    return Ok(None);
                }
                Err(ScriptFailure::BadLine)
            }
        }
    }

    // Where the source has told its end, a newline is the last of what is pending.
    fn closes(&self)
        ensures { IsClosed self.now }
    {
        let _input = &self.input;
    }

    // Takes more from the source, which has not told its end. There a last line gets its newline.
    #[tactic(auto, using(crate::proofs::Waiting::fills_end, crate::proofs::Waiting::fills_more, crate::proofs::Waiting::fills_fault))]
    fn fill<S: Source>(&mut self, source: &mut S) -> Result<(), ScriptFailure>
        requires open { self.old.ended ≡ false }
        requires plain { HasNoNewline self.old.bytes }
        ensures fills { Fills (S.left source.old) (S.left source.new) self.old self.new result }
        ensures fault { result ≡ Err ScriptFailure.ReadFault
            → Rose (S.faults source.old) (S.faults source.new) }
        ensures later { S.faults source.old ≤ S.faults source.new }
    {
        match self.input.fill(source) {
            Ok(true) => Ok(()),
            Ok(false) => {
                if self.end().is_err() {
                    return Err(ScriptFailure::NoMemory);
                }
                Ok(())
            }
            Err(InputError::ReadFault) => Err(ScriptFailure::ReadFault),
            Err(InputError::NoMemory) => Err(ScriptFailure::NoMemory),
        }
    }

    // Takes no more, and gives a last line its newline.
    fn end(&mut self) -> Result<(), NoMemory>
        ensures { OnOk result (self.new ≡ record {
          bytes = with_last_newline self.old.bytes;
          ended = true;
        }) }
    {
        if !self.pending_bytes().is_empty() {
            self.input.push(b'\n')?;
        }
        self.ended = true;
        Ok(())
    }
}

// The place of the first newline.
fn line_end(pending: &[u8]) -> Option<usize>
    ensures line { IfSome result (λ place. IsLineEnd pending.now place) }
    ensures none { IfNone result (HasNoNewline pending.now) }
{
    pending.iter().position(|b| *b == b'\n')
}

// A line of that many bytes that begins at that offset is within its limits.
fn is_within(length: usize, offset: u64) -> bool
    requires { offset ≤ longest_script + 1 }
    ensures yes { OnTrue result (IsWithinLineLimits offset length) }
    ensures no { OnFalse result (IsWithinLineLimits offset length → ⊥) }
{
    length <= LINE_LIMIT && offset + length as u64 <= LONGEST_SCRIPT
}

// More bytes are to be taken for the line that begins there: there is none, or no newline is among
// them and that of a line still can come.
fn is_line_open(pending: &[u8], offset: u64) -> bool
    requires { offset ≤ longest_script + 1 }
    ensures yes { OnTrue result (AwaitsLine offset pending.now) }
    ensures no { OnFalse result (AwaitsLine offset pending.now → ⊥) }
{
    pending.is_empty() || (is_within(pending.len(), offset) && line_end(pending).is_none())
}
