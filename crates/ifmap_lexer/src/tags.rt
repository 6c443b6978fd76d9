//! Tags.
ghost use Rattle.std.specs.Prelude.{◌<◌, ◌↔◌, ℕ, List, IfErr, IfOk, IsTrue, length};
ghost use Rattle.ifmap_elem.specs.Chars.{AllAre, IsCharacters};
ghost use Rattle.ifmap_elem.specs.Tokens.{TakesAssignment, TakesTag};
ghost use Rattle.ifmap_elem.specs.Values.{IsValue};
ghost use Rattle.ifmap_elem.specs.declared.tokens.Assignment.{Assignment};
ghost use Rattle.ifmap_elem.specs.declared.tokens.Tag.{Tag};
ghost use Rattle.ifmap_lexer.specs.There.{IsGiven, SomeAssignment, SomeAssignments, SomeGiven, SomeTag};
ghost use Rattle.ifmap_lexer.specs.Cutting.{is_but};
ghost use Rattle.ifmap_lexer.specs.Refusing.{Refuses};
ghost use Rattle.ifmap_lexer.specs.Tags.{ClosesTag, IsAtEnd, TakesAssignments};

use crate::characters::characters;
use crate::errors::LexError;
use crate::names::name_of;
use crate::quoting::quoted_value;
use crate::splitting::{has_byte, split_white};
use crate::values::meaning;
use ifmap_elem::fronts::after_word;
use ifmap_elem::tokens::{Assignment, Tag};
use ifmap_elem::{Many, Text, TextPlace};
use std::alloc::Global;

// The tag at the front, and how it ends.
pub(crate) fn tag_of(alloc: Global, bytes: &[u8]) -> Result<(Tag, &[u8]), LexError>
    ensures found { IfOk result (λ f. TakesTag bytes.now f.0 f.1.now × ClosesTag f.1.now) }
    ensures refused { IfErr result (λ e. Refuses e (SomeTag bytes.now)) }
{
    let Some(inner) = after_word(b"<", bytes) else {
        return Err(LexError::Malformed);
    };
    let (name, after) = name_of(alloc, inner)?;
    let (assignments, end) = assignments_of(alloc, after)?;
    Ok((Tag { name, assignments }, end))
}

// The assignments up to the end of a tag, and that end.
fn assignments_of(alloc: Global, bytes: &[u8]) -> Result<(Many<Assignment>, &[u8]), LexError>
    ensures found { IfOk result (λ f. TakesAssignments bytes.now f.0 f.1.now) }
    ensures refused { IfErr result (λ e. Refuses e (SomeAssignments bytes.now)) }
{
    let mut made = Vec::new(alloc);
    let mut rest = bytes;
    'all: while !is_at_end(rest) {
        let (assignment, after) = assignment_of(alloc, rest)?;
        made.push(assignment)?;
        rest = after;
    }
    let (_white, end) = split_white(rest);
    Ok((Many(made), end))
}

// Whether white space stands here, or none, and then a tag's end.
fn is_at_end(bytes: &[u8]) -> bool
    ensures { IsTrue result ↔ IsAtEnd bytes.now }
{
    let (_white, end) = split_white(bytes);
    closes(end)
}

fn closes(bytes: &[u8]) -> bool
    ensures { IsTrue result ↔ ClosesTag bytes.now }
{
    match bytes.first() {
        Some(first) => *first == b'>' || *first == b'/',
        None => false,
    }
}

// White space and the assignment after it, and what is left.
fn assignment_of(alloc: Global, bytes: &[u8]) -> Result<(Assignment, &[u8]), LexError>
    ensures found { IfOk result (λ f. TakesAssignment bytes.now f.0 f.1.now) }
    ensures refused { IfErr result (λ e. Refuses e (SomeAssignment bytes.now)) }
    ensures shorter { IfOk result (λ f. length f.1.now < length bytes.now) }
{
    let (white, inner) = split_white(bytes);
    if white.is_empty() {
        return Err(LexError::Malformed);
    }
    let (name, after) = name_of(alloc, inner)?;
    let Some((written, rest)) = quoted_value(after) else {
        return Err(LexError::Malformed);
    };
    let value = value_of(alloc, written)?;
    Ok((Assignment { name, value }, rest))
}

// What the written value means.
fn value_of(alloc: Global, written: &[u8]) -> Result<Text, LexError>
    ensures found { IfOk result (λ value. IsGiven written.now value) }
    ensures refused { IfErr result (λ e. Refuses e (SomeGiven written.now)) }
{
    if has_byte(b'<', written) {
        return Err(LexError::Malformed);
    }
    let Some(text) = characters(written) else {
        return Err(LexError::Malformed);
    };
    meaning(alloc, TextPlace::Value, text)
}
