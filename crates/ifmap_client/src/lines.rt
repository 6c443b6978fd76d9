//! The lines of a client's script.
ghost use Rattle.std.specs.Prelude.{ℕ, List, IfNone, IfSome};
ghost use Rattle.std.specs.Str.{IsUtf8};
ghost use Rattle.ifmap_client.specs.Lines.{IsLineAnswer, IsReadRequest, IsRequestAnswer, NamesSet};

use ifmap_elem::fronts::after_word;
use ifmap_elem::laws::bytes_spell_one_element;
use ifmap_elem::{Reading, Text};
use ifmap_reader::{ReadError, read};
use ifmap_requests::laws::elements_have_one_request_or_code;
use ifmap_requests::{FormError, Request, request_of};
use std::alloc::{AllocError as NoMemory, Global};
use std::str;

/// How many bytes a line can have, its newline not counted.
pub const LINE_LIMIT: usize = 1_000_000;

// How many levels a request can have: an envelope puts two more round it.
const LINE_LEVELS: u32 = 62;

/// A line of a client's script, without its newline.
#[derive(Debug, Drop)]
pub enum Line {
    /// Nothing, which is passed over.
    Blank,
    /// A request to be sent. The session `*` stands for the one that was begun last.
    Request(Request),
    /// The set of that name is to be printed.
    Set(Text),
}

/// What a line means, or `None` exactly where it is of no form. The one error is want of memory.
pub fn line_of(alloc: Global, line: &[u8]) -> Result<Option<Line>, NoMemory>
    ensures { IsLineAnswer line.now result }
{
    if line.len() > LINE_LIMIT {
        return Ok(None);
    }
    if line.is_empty() {
        return Ok(Some(Line::Blank));
    }
    if let Some(name) = set_named(line) {
        return Ok(Some(Line::Set(Text::from_str(alloc, name)?)));
    }
    match request_on(alloc, line)? {
        Some(request) => Ok(Some(Line::Request(request))),
        None => Ok(None),
    }
}

// The name of the set that a line asks for, if it does.
fn set_named(line: &[u8]) -> Option<&str>
    ensures found { IfSome result (λ name. NamesSet line.now name.now) }
    ensures none { IfNone result ((name : List ℕ) → NamesSet line.now name → ⊥) }
{
    match str::from_utf8(after_word(b"set ", line)?) {
        Ok(name) => Some(name),
        Err(_) => None,
    }
}

// The request that a line is, if it is one.
fn request_on(alloc: Global, line: &[u8]) -> Result<Option<Request>, NoMemory>
    ensures { IsRequestAnswer line.now result }
{
    bytes_spell_one_element();
    match read(alloc, line, LINE_LEVELS) {
        Ok(reading) => request_of_reading(alloc, &reading),
        Err(ReadError::NoMemory) => Err(NoMemory),
        Err(ReadError::Unreadable { .. }) => Ok(None),
        Err(ReadError::TooDeep { .. }) => Ok(None),
    }
}

// The request that what was read means, if it means one.
fn request_of_reading(alloc: Global, reading: &Reading) -> Result<Option<Request>, NoMemory>
    ensures { IsReadRequest reading.now result }
{
    elements_have_one_request_or_code();
    match request_of(alloc, reading, &[]) {
        Ok(request) => Ok(Some(request)),
        Err(FormError::Named(_)) => Ok(None),
        Err(FormError::NoMemory) => Err(NoMemory),
    }
}
