//! Texts as they are written in canonical bytes, compared and measured without writing them.
ghost use Rattle.std.specs.Prelude.{◌≡◌, ◌≢◌, ◌<◌, ◌≤◌, ◌+◌, ◌-◌, ◌^◌, None, drop, length, min, take};
ghost use Rattle.std.specs.List.{slice_get};
ghost use Rattle.std.specs.Option.{option_copied};
ghost use Rattle.std.specs.Cmp.Lexicographic.{slice_cmp};
ghost use Rattle.std.specs.Ordering.{nat_cmp};
ghost use Rattle.ifmap_ident.specs.Leading.{FrontsCompare};
ghost use Rattle.ifmap_ident.specs.Written.{closed_text, placed_byte, placed_bytes, written_byte};

use ifmap_elem::{Text, TextPlace, text_reference, value_reference};
use std::cmp::Ordering;
use std::simd::prelude::*;
use std::slice;

// How two texts compare as they are written, each with the byte that ends it in its place.
pub(crate) fn text_order(place: TextPlace, one: &Text, other: &Text) -> Ordering
    ensures { FrontsCompare result (closed_text place one.now) (closed_text place other.now) }
{
    bytes_order(place, one.as_bytes(), other.as_bytes())
}

pub(crate) fn bytes_order(place: TextPlace, one: &[u8], other: &[u8]) -> Ordering
    ensures { FrontsCompare result (closed_text place one.now) (closed_text place other.now) }
{
    let shared = shared_len(one, other);
    order_after_shared(place, one.get(shared), other.get(shared))
}

// How what is written for two bytes compares; where a text ends, for the byte that ends it.
fn order_after_shared(place: TextPlace, one: Option<&u8>, other: Option<&u8>) -> Ordering
    ensures { result ≡ slice_cmp nat_cmp (written_byte place (option_copied one.entry))
        (written_byte place (option_copied other.entry)) }
{
    match (one, other) {
        (Some(one), Some(other)) => byte_order(place, one, other),
        (one, other) => written_byte(place, one).cmp(written_byte(place, other)),
    }
}

fn byte_order(place: TextPlace, one: &u8, other: &u8) -> Ordering
    ensures { result ≡ slice_cmp nat_cmp (placed_byte place one.now) (placed_byte place other.now) }
{
    if *one > LAST_REFERENCE && *other > LAST_REFERENCE {
        return one.cmp(other);
    }
    placed_byte(place, one).cmp(placed_byte(place, other))
}

// How many bytes both begin with.
fn shared_len(one: &[u8], other: &[u8]) -> usize
    ensures shared { take result one.now ≡ take result other.now }
    ensures apart { slice_get one.now result ≡ slice_get other.now result
        → slice_get one.now result ≡ None }
{
    if one.len() < BLOCK || other.len() < BLOCK {
        return shared_len_each(one, other);
    }
    shared_len_in_blocks(one, other)
}

// As `shared_len`, byte by byte.
fn shared_len_each(one: &[u8], other: &[u8]) -> usize
    ensures shared { take result one.now ≡ take result other.now }
    ensures apart { slice_get one.now result ≡ slice_get other.now result
        → slice_get one.now result ≡ None }
{
    for i in 0..one.len() {
        if other.get(i) != one.get(i) {
            return i;
        }
    }
    one.len()
}

// How many bytes are compared together.
const BLOCK: usize = 16;

// As `shared_len`, for one block at least of each. The last block may overlap the one before.
fn shared_len_in_blocks(one: &[u8], other: &[u8]) -> usize
    requires one { BLOCK ≤ length one.now }
    requires other { BLOCK ≤ length other.now }
    ensures shared { take result one.now ≡ take result other.now }
    ensures apart { slice_get one.now result ≡ slice_get other.now result
        → slice_get one.now result ≡ None }
{
    let last = one.len().min(other.len()) - BLOCK;
    let mut at = 0;
    while at < last {
        let shared = shared_in_block(one, other, at);
        if shared < BLOCK {
            return at + shared;
        }
        at += BLOCK;
    }
    last + shared_in_block(one, other, last)
}

// How many bytes two blocks begin with alike.
fn shared_in_block(one: &[u8], other: &[u8], at: usize) -> usize
    requires one { at + BLOCK ≤ length one.now }
    requires other { at + BLOCK ≤ length other.now }
    ensures within { result ≤ BLOCK }
    ensures shared { take result (drop at one.now) ≡ take result (drop at other.now) }
    ensures apart { result < BLOCK
        → slice_get one.now (at + result) ≢ slice_get other.now (at + result) }
{
    let block = u8x16::from_slice(&one[at..]);
    let differing = block.simd_ne(u8x16::from_slice(&other[at..])).to_bitmask();
    if differing == 0 {
        return BLOCK;
    }
    differing.trailing_zeros() as usize
}

// How long a text is as it is written; at most 2^64 - 1.
pub(crate) fn text_len(place: TextPlace, text: &Text) -> u64
    ensures { result ≡ min (length (placed_bytes place text.now)) (2 ^ 64 - 1) }
{
    let mut len: u64 = 0;
    for byte in text.as_bytes() {
        len = len.saturating_add(placed_byte(place, byte).len() as u64);
    }
    len
}

// What is written for a byte in its place; at the end of a text, the byte that ends it.
fn written_byte<'a>(place: TextPlace, byte: Option<&'a u8>) -> &'a [u8]
    ensures { result.now ≡ written_byte place (option_copied byte.entry) }
{
    match (place, byte) {
        (TextPlace::Value, None) => b"\"",
        (TextPlace::Content, None) => b"<",
        (place, Some(byte)) => placed_byte(place, byte),
    }
}

// The last byte that is written as a reference in some place.
const LAST_REFERENCE: u8 = b'>';

// What is written for a byte in its place.
fn placed_byte<'a>(place: TextPlace, byte: &'a u8) -> &'a [u8]
    ensures { result.now ≡ placed_byte place byte.now }
{
    if *byte > LAST_REFERENCE {
        return slice::from_ref(byte);
    }
    match place {
        TextPlace::Value => value_reference(*byte).unwrap_or(slice::from_ref(byte)),
        TextPlace::Content => text_reference(*byte).unwrap_or(slice::from_ref(byte)),
    }
}
