//! Bodies, as they come from a source.
ghost use Rattle.std.specs.Prelude.{◌≡◌, ◌<◌, ◌≤◌, ◌+◌, ◌++◌, ℕ, List, Err, IfOk, OnErr, OnOk, length, take, vec_len};
ghost use Rattle.std.specs.Io.KnownBytes.{Consumes, IsAtEnd};
ghost use Rattle.ifmap_io.specs.Causes.{Rose};
ghost use Rattle.ifmap_input.specs.Inputs.{UsesOneSide};
ghost use Rattle.ifmap_http.specs.Bodies.{LacksBody, TakesBody};

use ifmap_input::{CHUNK, Input};
use ifmap_io::{Failed, Source};
use std::alloc::{AllocError as NoMemory, Global};

// Why bytes were not read.
#[derive(Clone, Copy, Debug, PartialEq, Eq)]
pub(crate) enum Unread {
    Truncated,
    ReadFault,
    NoMemory,
}

// Takes a body of that size.
pub(crate) fn take_body<S: Source>(
    alloc: Global,
    input: &mut Input,
    source: &mut S,
    size: usize,
) -> Result<Vec<u8>, Unread>
    ensures body { IfOk result (λ body.
        TakesBody (S.left source.old) (S.left source.new) input.old input.new body.items) }
    ensures size { IfOk result (λ body. length body.items ≡ size) }
    ensures truncated { result ≡ Err Unread.Truncated
        → LacksBody (S.left source.old) (S.left source.new) input.old size }
    ensures fault { result ≡ Err Unread.ReadFault
        → Rose (S.faults source.old) (S.faults source.new) }
    ensures side { UsesOneSide S.left S.faults S.outgoing source.old source.new }
    ensures quiet { size ≤ length input.old → source.new ≡ source.old }
{
    let Ok(mut body) = Vec::with_capacity(alloc, size) else {
        return Err(Unread::NoMemory);
    };
    let there = size.min(input.pending_bytes().len());
    if body
        .extend_from_slice(&input.pending_bytes()[..there])
        .is_err()
    {
        return Err(Unread::NoMemory);
    }
    input.advance(there);
    if there == size {
        return Ok(body);
    }
    fill_body(body, source, size)
}

// Reads what a body lacks of its size.
#[tactic(auto, using(ifmap_input::specs::InputLaws::uses_nothing, ifmap_input::specs::InputLaws::uses_more, ifmap_io::specs::Rises::rose_since))]
fn fill_body<S: Source>(mut body: Vec<u8>, source: &mut S, size: usize) -> Result<Vec<u8>, Unread>
    requires { vec_len body ≤ size }
    ensures body { IfOk result (λ whole. (vec_len whole ≡ size)
        × ((got : List ℕ) × Consumes (S.left source.old) (S.left source.new) got
        × (whole.items ≡ body.items ++ got))) }
    ensures truncated { result ≡ Err Unread.Truncated → IsAtEnd (S.left source.new)
        × ((got : List ℕ) × Consumes (S.left source.old) (S.left source.new) got
        × (length (body.items ++ got) < size)) }
    ensures fault { result ≡ Err Unread.ReadFault
        → Rose (S.faults source.old) (S.faults source.new) }
    ensures side { UsesOneSide S.left S.faults S.outgoing source.old source.new }
{
    let mut filled = body.len();
    'body: while filled < size {
        if make_room(&mut body, filled, size).is_err() {
            return Err(Unread::NoMemory);
        }
        match read_after(source, &mut body, filled) {
            Ok(0) => return Err(Unread::Truncated),
            Ok(count) => filled += count,
            Err(_) => return Err(Unread::ReadFault),
        }
    }
    Ok(body)
}

// Clears some more of the body's room where all of it is filled, and no more than one read takes: a
// length that lies costs no more than this.
fn make_room(body: &mut Vec<u8>, filled: usize, size: usize) -> Result<(), NoMemory>
    requires within { filled ≤ vec_len body.old }
    requires short { vec_len body.old ≤ size }
    requires lacks { filled < size }
    ensures room { OnOk result ((filled < vec_len body.new) × (vec_len body.new ≤ size)) }
    ensures same { OnOk result (take filled body.new.items ≡ take filled body.old.items) }
{
    if filled < body.len() {
        return Ok(());
    }
    body.resize(size.min(filled.saturating_add(CHUNK)), 0)
}

// Reads what comes next to the place after what is filled.
fn read_after<S: Source>(source: &mut S, body: &mut Vec<u8>, filled: usize) -> Result<usize, Failed>
    requires { filled ≤ vec_len body.old }
    ensures len { vec_len body.new ≡ vec_len body.old }
    ensures got { IfOk result (λ count. (filled + count ≤ vec_len body.new)
        × ((got : List ℕ) × Consumes (S.left source.old) (S.left source.new) got
        × (take (filled + count) body.new.items ≡ take filled body.old.items ++ got))) }
    ensures end { IfOk result (λ count. count ≡ 0 → filled < vec_len body.old
        → IsAtEnd (S.left source.new)) }
    ensures fault { OnErr result (Rose (S.faults source.old) (S.faults source.new)) }
    ensures side { UsesOneSide S.left S.faults S.outgoing source.old source.new }
{
    source.read(&mut body[filled..])
}
