//! Text and the values of attributes as they stand in canonical bytes.
ghost use Rattle.std.specs.Prelude.{◌≡◌, ◌++◌, ◌+◌, ◌∷◌, [], ◌≤◌, length, OnOk, MatchOption};
ghost use Rattle.std.specs.Bool.{OnTrue};
ghost use Rattle.ifmap_elem.specs.Escapes.{text_byte, value_byte};
ghost use Rattle.ifmap_elem.specs.printer.Plain.{escape_byte, escape_bytes, ArePlain, LacksByte};

use std::alloc::AllocError as NoMemory;
use std::simd::prelude::*;

/// Where the characters of a text stand in a document.
#[derive(Clone, Copy)]
pub enum TextPlace {
    /// Between tags.
    Content,
    /// Between the quotes of an attribute.
    Value,
}

// Appends bytes as they are written in their place.
#[inline(always)]
pub(crate) fn write_escaped(
    place: TextPlace,
    bytes: &[u8],
    out: &mut Vec<u8>,
) -> Result<(), NoMemory>
    ensures { OnOk result (out.new.items ≡ out.old.items ++ escape_bytes place bytes.now) }
{
    if bytes.len() > RUN {
        return write_runs(place, bytes, out);
    }
    write_run(place, bytes, out)
}

// How many bytes are looked at before they are copied.
const RUN: usize = 256;

#[inline(never)]
fn write_runs(place: TextPlace, bytes: &[u8], out: &mut Vec<u8>) -> Result<(), NoMemory>
    ensures { OnOk result (out.new.items ≡ out.old.items ++ escape_bytes place bytes.now) }
{
    let mut rest = bytes;
    while !rest.is_empty() {
        let (run, after) = rest.split_at(rest.len().min(RUN));
        write_run(place, run, out)?;
        rest = after;
    }
    Ok(())
}

#[inline(always)]
fn write_run(place: TextPlace, bytes: &[u8], out: &mut Vec<u8>) -> Result<(), NoMemory>
    ensures { OnOk result (out.new.items ≡ out.old.items ++ escape_bytes place bytes.now) }
{
    if is_plain(place, bytes) {
        return out.extend_from_slice(bytes);
    }
    write_each(place, bytes, out)
}

#[inline(never)]
fn write_each(place: TextPlace, bytes: &[u8], out: &mut Vec<u8>) -> Result<(), NoMemory>
    ensures { OnOk result (out.new.items ≡ out.old.items ++ escape_bytes place bytes.now) }
{
    for byte in bytes {
        write_byte(place, *byte, out)?;
    }
    Ok(())
}

fn write_byte(place: TextPlace, byte: u8, out: &mut Vec<u8>) -> Result<(), NoMemory>
    ensures { OnOk result (out.new.items ≡ out.old.items ++ escape_byte place byte) }
{
    match escape(place, byte) {
        Some(reference) => out.extend_from_slice(reference)?,
        None => out.push(byte)?,
    }
    Ok(())
}

// Whether each byte stands for itself.
#[inline(always)]
fn is_plain(place: TextPlace, bytes: &[u8]) -> bool
    ensures { OnTrue result (escape_bytes place bytes.now ≡ bytes.now) }
{
    if bytes.len() < BLOCK {
        is_plain_each(place, bytes)
    } else {
        is_plain_in_blocks(place, bytes)
    }
}

#[inline(always)]
fn is_plain_each(place: TextPlace, bytes: &[u8]) -> bool
    ensures { OnTrue result (ArePlain place bytes.now 0 (length bytes.now)) }
{
    for byte in bytes {
        if !is_plain_byte(place, *byte) {
            return false;
        }
    }
    true
}

#[inline(always)]
fn is_plain_byte(place: TextPlace, byte: u8) -> bool
    ensures { OnTrue result (escape_byte place byte ≡ byte ∷ []) }
{
    match place {
        TextPlace::Content => !matches!(byte, b'&' | b'<' | b'>' | b'\r'),
        TextPlace::Value => !matches!(byte, b'&' | b'<' | b'"' | b'\t' | b'\n' | b'\r'),
    }
}

// How many bytes are looked at together.
const BLOCK: usize = 16;

// As `is_plain`, for one block at least. The last block may overlap the one before.
#[inline(always)]
fn is_plain_in_blocks(place: TextPlace, bytes: &[u8]) -> bool
    requires { BLOCK ≤ length bytes.now }
    ensures { OnTrue result (ArePlain place bytes.now 0 (length bytes.now)) }
{
    let mut at = 0;
    while bytes.len() - at > BLOCK {
        if !is_plain_block(place, bytes, at) {
            return false;
        }
        at += BLOCK;
    }
    is_plain_block(place, bytes, bytes.len() - BLOCK)
}

#[inline(always)]
fn is_plain_block(place: TextPlace, bytes: &[u8], at: usize) -> bool
    requires { at + BLOCK ≤ length bytes.now }
    ensures { OnTrue result (ArePlain place bytes.now at (at + BLOCK)) }
{
    let lacks_common = lacks(bytes, at, b'&') & lacks(bytes, at, b'<') & lacks(bytes, at, b'\r');
    match place {
        TextPlace::Content => lacks_common & lacks(bytes, at, b'>'),
        TextPlace::Value => {
            lacks_common
                & lacks(bytes, at, b'"')
                & lacks(bytes, at, b'\t')
                & lacks(bytes, at, b'\n')
        }
    }
}

// Whether a byte is none of a block.
#[inline(always)]
fn lacks(bytes: &[u8], at: usize, byte: u8) -> bool
    requires { at + BLOCK ≤ length bytes.now }
    ensures { OnTrue result (LacksByte bytes.now at (at + BLOCK) byte) }
{
    let block = u8x16::from_slice(&bytes[at..]);
    block.simd_eq(u8x16::splat(byte)).to_bitmask() == 0
}

/// The reference that a byte of an attribute's value is written as in canonical bytes; `None` where it
/// stands for itself.
pub fn value_reference(byte: u8) -> Option<&'static [u8]>
    ensures { MatchOption result (value_byte byte ≡ byte ∷ [])
        (λ reference. reference.now ≡ value_byte byte) }
{
    escape(TextPlace::Value, byte)
}

/// The same of a byte of text.
pub fn text_reference(byte: u8) -> Option<&'static [u8]>
    ensures { MatchOption result (text_byte byte ≡ byte ∷ [])
        (λ reference. reference.now ≡ text_byte byte) }
{
    escape(TextPlace::Content, byte)
}

// The reference that a byte is written as, where it does not stand for itself.
fn escape(place: TextPlace, byte: u8) -> Option<&'static [u8]>
    ensures { MatchOption result (escape_byte place byte ≡ byte ∷ [])
        (λ reference. reference.now ≡ escape_byte place byte) }
{
    match (place, byte) {
        (_, b'&') => Some(b"&amp;"),
        (_, b'<') => Some(b"&lt;"),
        (_, b'\r') => Some(b"&#13;"),
        (TextPlace::Content, b'>') => Some(b"&gt;"),
        (TextPlace::Value, b'"') => Some(b"&quot;"),
        (TextPlace::Value, b'\t') => Some(b"&#9;"),
        (TextPlace::Value, b'\n') => Some(b"&#10;"),
        _ => None,
    }
}
