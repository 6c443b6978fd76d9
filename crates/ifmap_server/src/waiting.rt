//! Waiting for the bytes of a frame, as they come from a source.
ghost use Rattle.std.specs.Prelude.{◌≡◌, ◌≢◌, ◌<◌, ◌≤◌, ◌⊎◌, [], ◌++◌, length, Err, IfErr, IfNone, IfOk, IfSome, None, Ok};
ghost use Rattle.std.specs.Bool.{OnFalse, OnTrue};
ghost use Rattle.std.specs.Io.KnownBytes.{IsAtEnd};
ghost use Rattle.ifmap_server.specs.Awaited.{AwaitsHeaderLine, HasNoLine, IsHeaderLineEnd};
ghost use Rattle.ifmap_server.specs.Taking.{TakesBytes};

use crate::errors::ReplayError;
use crate::headers::LONGEST_HEADER;
use ifmap_input::{Input, InputError};
use ifmap_io::Source;

/// Waits for a header's line, and answers the place of its newline; `None` where the source ends
/// and nothing is pending.
#[tactic(auto, using(ifmap_input::specs::InputLaws::takes_nothing, ifmap_input::specs::InputLaws::takes_more, ifmap_io::specs::Rises::rose_since))]
pub fn await_line<S: Source>(
    input: &mut Input,
    source: &mut S,
) -> Result<Option<usize>, ReplayError>
    ensures takes { TakesBytes S.left S.faults (source.old, input.old) (source.new, input.new)
        result }
    ensures line { IfOk result
        (λ found. IfSome found (λ place. IsHeaderLineEnd input.new place)) }
    ensures end { result ≡ Ok None → IsAtEnd (S.left source.new) × (input.new ≡ []) }
    ensures fault { result ≡ Err ReplayError.FrameFault →
        IfSome (S.left source.new) (λ rest. (input.new ≢ []) × HasNoLine (input.new ++ rest)) }
    ensures read { result ≡ Err ReplayError.ReadFault → AwaitsHeaderLine input.new }
    ensures cause { result ≢ Err ReplayError.WriteFault }
{
    'line: loop {
        if let Some(place) = line_end(input.pending_bytes()) {
            return Ok(Some(place));
        }
        if input.pending_bytes().len() >= LONGEST_HEADER {
            return Err(ReplayError::FrameFault);
        }
        if !take_more(input, source)? {
            return if input.pending_bytes().is_empty() {
                Ok(None)
            } else {
                Err(ReplayError::FrameFault)
            };
        }
    }
}

/// Waits until that many bytes are pending; false where the source ends before.
#[tactic(auto, using(ifmap_input::specs::InputLaws::takes_nothing, ifmap_input::specs::InputLaws::takes_more, ifmap_io::specs::Rises::rose_since))]
pub fn await_bytes<S: Source>(
    input: &mut Input,
    source: &mut S,
    count: usize,
) -> Result<bool, ReplayError>
    ensures takes { TakesBytes S.left S.faults (source.old, input.old) (source.new, input.new)
        result }
    ensures enough { IfOk result (λ enough. OnTrue enough (count ≤ length input.new)) }
    ensures end { IfOk result (λ enough.
        OnFalse enough (IsAtEnd (S.left source.new) × (length input.new < count))) }
    ensures read { result ≡ Err ReplayError.ReadFault → length input.new < count }
    ensures cause { IfErr result (λ e. (e ≡ ReplayError.ReadFault)
        ⊎ (e ≡ ReplayError.NoMemory)) }
{
    'bytes: while input.pending_bytes().len() < count {
        if !take_more(input, source)? {
            return Ok(false);
        }
    }
    Ok(true)
}

// Takes more by one read, and tells why not as a replay does; false at the source's end.
fn take_more<S: Source>(input: &mut Input, source: &mut S) -> Result<bool, ReplayError>
    ensures takes { TakesBytes S.left S.faults (source.old, input.old) (source.new, input.new)
        result }
    ensures more { IfOk result (λ more. OnTrue more (length input.old < length input.new)) }
    ensures end { IfOk result (λ more.
        OnFalse more (IsAtEnd (S.left source.new) × (input.new ≡ input.old))) }
    ensures kept { result ≡ Err ReplayError.ReadFault → input.new ≡ input.old }
    ensures cause { IfErr result (λ e. (e ≡ ReplayError.ReadFault)
        ⊎ (e ≡ ReplayError.NoMemory)) }
{
    match input.fill(source) {
        Ok(more) => Ok(more),
        Err(InputError::ReadFault) => Err(ReplayError::ReadFault),
        Err(InputError::NoMemory) => Err(ReplayError::NoMemory),
    }
}

// The place of the first newline, where it stands where a header's can.
fn line_end(pending: &[u8]) -> Option<usize>
    ensures line { IfSome result (λ place. IsHeaderLineEnd pending.now place) }
    ensures none { IfNone result (HasNoLine pending.now) }
{
    let within = pending.len().min(LONGEST_HEADER);
    pending[..within].iter().position(|b| *b == b'\n')
}
