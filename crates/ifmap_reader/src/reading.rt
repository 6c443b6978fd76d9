//! Reading a document.
ghost use Rattle.std.specs.Prelude.{◌≡◌, ◌≤◌, drop, length, IfOk};
ghost use Rattle.ifmap_elem.specs.declared.elements.Element.{Element};
ghost use Rattle.ifmap_elem.specs.Fit.{IsFit};
ghost use Rattle.ifmap_elem.specs.Spells.{without_byte_order_mark};
ghost use Rattle.ifmap_reader.specs.Reads.{AreCanonical, GivesBack, IsRead, read_at_end, refusal_error};

use crate::errors::{ReadError, TokenRefusal};
use crate::next_token::take_next;
use crate::progress::DocumentProgress;
use ifmap_elem::Reading;
use std::alloc::Global;

const BYTE_ORDER_MARK: &[u8] = b"\xEF\xBB\xBF";

/// The element that the bytes spell, with the declarations of prefixes in it, where it nests at most
/// `depth` levels deep. The bytes are read once, front to back.
pub fn read(alloc: Global, bytes: &[u8], depth: u32) -> Result<Reading, ReadError>
    ensures answer { IsRead bytes.now depth result }
    ensures fit { IfOk result (λ r. IsFit r.root) }
    ensures canonical { (e : Element) → AreCanonical bytes.now depth e → GivesBack e result }
{
    read_tokens(alloc, bytes, depth)
}

fn read_tokens(alloc: Global, bytes: &[u8], depth: u32) -> Result<Reading, ReadError>
    ensures { IsRead bytes.now depth result }
{
    let mut at = byte_order_mark_length(bytes);
    let mut standing = DocumentProgress::Start;
    while at < bytes.len() {
        let next = match take_next(alloc, depth, standing, &bytes[at..]) {
            Ok(next) => next,
            Err(refusal) => return Err(refusal_error(refusal, at)),
        };
        standing = next.standing;
        at += next.length;
    }
    read_at_end(standing, at)
}

// What has been read where the input ends.
fn read_at_end(standing: DocumentProgress, at: usize) -> Result<Reading, ReadError>
    ensures { result ≡ read_at_end standing at }
{
    match standing {
        DocumentProgress::Done(reading) => Ok(Box::into_inner(reading)),
        _ => Err(ReadError::Unreadable { at: at as u64 }),
    }
}

// How many bytes a byte order mark takes.
fn byte_order_mark_length(bytes: &[u8]) -> usize
    ensures after { drop result bytes.now ≡ without_byte_order_mark bytes.now }
    ensures within { result ≤ length bytes.now }
{
    if bytes.starts_with(BYTE_ORDER_MARK) {
        BYTE_ORDER_MARK.len()
    } else {
        0
    }
}

fn refusal_error(refusal: TokenRefusal, at: usize) -> ReadError
    ensures { result ≡ refusal_error refusal at }
{
    match refusal {
        TokenRefusal::NotAllowed => ReadError::Unreadable { at: at as u64 },
        TokenRefusal::TooDeep => ReadError::TooDeep { at: at as u64 },
        TokenRefusal::NoMemory => ReadError::NoMemory,
    }
}
