//! Lists of kinds of identifiers.
ghost use Rattle.std.specs.Prelude.{◌≡◌, ◌==◌, ◌<◌, ◌≤◌, ◌∷◌, [], drop, length, reverse, take, IfNone, IfSome};
ghost use Rattle.std.specs.Bool.{OnTrue};
ghost use Rattle.std.specs.List.{position};
ghost use Rattle.std.specs.Str.{byte};
ghost use Rattle.ifmap_filter.specs.Tokens.{without_white};
ghost use Rattle.ifmap_forms.specs.Answers.{IsChecked};
ghost use Rattle.ifmap_lemmas.specs.Separated.{comma_parts};
ghost use Rattle.ifmap_forms.specs.Values.{begins_white, kind_named, kinds_check, piece_check, read_kinds, trim_white};

use crate::errors::FormError;
use ifmap_elem::Many;
use ifmap_elem::white_space::{is_white, is_white_alone};
use ifmap_ident::kinds::KINDS;
use ifmap_ident::{Code, Kind};
use std::alloc::Global;

/// The kinds of identifiers that a text names, in its order: names of kinds with commas between
/// them and white space round each, or a blank text, which names none. A text between two commas
/// that is no name of a kind is InvalidIdentifierType.
pub fn kinds_in(alloc: Global, text: &[u8]) -> Result<Many<Kind>, FormError>
    ensures { IsChecked (read_kinds (Some text.now)) result }
{
    if is_white_alone(text) {
        return Ok(Many(Vec::new(alloc)));
    }
    kinds_of_pieces(alloc, text)
}

fn kinds_of_pieces(alloc: Global, text: &[u8]) -> Result<Many<Kind>, FormError>
    ensures { IsChecked (kinds_check (comma_parts text.now)) result }
{
    let mut kinds = Vec::new(alloc);
    let mut rest = text;
    while let Some((piece, others)) = cut_piece(rest) {
        kinds.push(read_kind(piece)?)?;
        rest = others;
    }
    kinds.push(read_kind(rest)?)?;
    Ok(Many(kinds))
}

// The first piece and what stands after its comma; `None` where there is no comma.
fn cut_piece(text: &[u8]) -> Option<(&[u8], &[u8])>
    ensures pieces { IfSome result
        (λ cut. comma_parts text.now ≡ cut.0.now ∷ comma_parts cut.1.now) }
    ensures shorter { IfSome result (λ cut. length cut.1.now < length text.now) }
    ensures whole { IfNone result (comma_parts text.now ≡ text.now ∷ []) }
{
    match comma_in(text) {
        Some(end) => Some((take_front(text, end), rest_from(text, end + 1))),
        None => None,
    }
}

fn take_front(text: &[u8], end: usize) -> &[u8]
    requires { end ≤ length text.now }
    ensures { result.now ≡ take end text.now }
{
    &text[..end]
}

fn rest_from(text: &[u8], start: usize) -> &[u8]
    requires { start ≤ length text.now }
    ensures { result.now ≡ drop start text.now }
{
    &text[start..]
}

// The index of the first comma.
fn comma_in(text: &[u8]) -> Option<usize>
    ensures place { result ≡ position (λ b. b == byte ",") text.now }
    ensures inside { IfSome result (λ end. end < length text.now) }
{
    text.iter().position(|byte| *byte == b',')
}

// The kind that a piece names, with white space round it or none.
fn read_kind(piece: &[u8]) -> Result<Kind, FormError>
    ensures { IsChecked (piece_check piece.now) result }
{
    match kind_of(trim_white(piece)) {
        Some(kind) => Ok(kind),
        None => Err(FormError::Named(Code::InvalidIdentifierType)),
    }
}

fn kind_of(name: &[u8]) -> Option<Kind>
    ensures { result ≡ kind_named name.now }
{
    KINDS
        .iter()
        .copied()
        .find(|kind| kind.name().as_bytes() == name)
}

fn trim_white(text: &[u8]) -> &[u8]
    ensures { result.now ≡ trim_white text.now }
{
    without_white_after(without_white(text))
}

#[tactic(auto, using(crate::proofs::KindLaws::white_front, crate::proofs::KindLaws::solid_front))]
fn without_white(text: &[u8]) -> &[u8]
    ensures { result.now ≡ without_white text.now }
{
    let mut rest = text;
    while begins_white(rest) {
        rest = &rest[1..];
    }
    rest
}

fn begins_white(text: &[u8]) -> bool
    ensures white { result ≡ begins_white text.now }
    ensures some { OnTrue result (0 < length text.now) }
{
    match text.first() {
        Some(byte) => is_white(*byte),
        None => false,
    }
}

#[tactic(auto, using(crate::proofs::KindLaws::white_back, crate::proofs::KindLaws::solid_back))]
fn without_white_after(text: &[u8]) -> &[u8]
    ensures { result.now ≡ reverse (without_white (reverse text.now)) }
{
    let mut rest = text;
    while ends_white(rest) {
        rest = &rest[..rest.len() - 1];
    }
    rest
}

fn ends_white(text: &[u8]) -> bool
    ensures white { result ≡ begins_white (reverse text.now) }
    ensures some { OnTrue result (0 < length text.now) }
{
    match text.last() {
        Some(byte) => is_white(*byte),
        None => false,
    }
}
