//! Written text and written values as what they mean.
ghost use Rattle.std.specs.Prelude.{◌≡◌, ◌<◌, ◌++◌, [], ◌∷◌, ◌≤◌, ℕ, List, IfErr, IfOk, OnOk, length, map, string_bytes};
ghost use Rattle.ifmap_elem.specs.Chars.{AllAre, carriage_return, line_feed};
ghost use Rattle.ifmap_elem.specs.Values.{SpellsOut, Plain, as_space, line_ends};
ghost use Rattle.ifmap_lexer.specs.There.{SomeExpansion};
ghost use Rattle.ifmap_lexer.specs.Common.{is_verbatim};
ghost use Rattle.ifmap_lexer.specs.Cutting.{is_but};
ghost use Rattle.std.specs.Bool.{OnTrue};
ghost use Rattle.ifmap_lexer.specs.Refusing.{Refuses};
ghost use Rattle.ifmap_lexer.specs.Runs.{break_in, line_in, part_in, run_in};

use crate::errors::LexError;
use crate::references::character_named;
use crate::splitting::split_char;
use ifmap_elem::{Text, TextPlace};
use std::alloc::{AllocError as NoMemory, Global};

// What the written characters mean. Most mean themselves.
#[tactic(auto, using(crate::proofs::VerbatimLaws::verbatim_expands))]
pub(crate) fn meaning(alloc: Global, place: TextPlace, written: &str) -> Result<Text, LexError>
    ensures found { IfOk result (λ text. SpellsOut (part_in place) written.now text) }
    ensures refused { IfErr result (λ e. Refuses e (SomeExpansion place written.now)) }
{
    if are_verbatim(written.as_bytes()) {
        return Ok(Text(String::from_str(alloc, written)?));
    }
    expand(alloc, place, written)
}

// Whether the bytes mean themselves wherever they stand: among them is no reference and no white
// space but spaces. Without a branch for each byte it becomes vector code.
#[tactic(auto, using(crate::proofs::CharacterLaws::all_more))]
fn are_verbatim(bytes: &[u8]) -> bool
    ensures { OnTrue result (AllAre is_verbatim bytes.now) }
{
    let mut other = false;
    for byte in bytes {
        let b = *byte;
        other |= (b < b' ') | (b == b'&');
    }
    !other
}

// What the written characters mean, run by run and reference by reference.
fn expand(alloc: Global, place: TextPlace, written: &str) -> Result<Text, LexError>
    ensures found { IfOk result (λ text. SpellsOut (part_in place) written.now text) }
    ensures refused { IfErr result (λ e. Refuses e (SomeExpansion place written.now)) }
{
    let mut text = String::with_capacity(alloc, written.len())?;
    let mut rest = written;
    while let Some((run, after)) = split_char('&', rest) {
        push_run(place, run, &mut text)?;
        let Some((name, next)) = split_char(';', after) else {
            return Err(LexError::Malformed);
        };
        let Some(character) = character_named(name.as_bytes()) else {
            return Err(LexError::Malformed);
        };
        text.push(character)?;
        rest = next;
    }
    push_run(place, rest, &mut text)?;
    Ok(Text(text))
}

// What characters mean between which no references stand.
pub(crate) fn plain_meaning(alloc: Global, written: &str) -> Result<Text, NoMemory>
    ensures { IfOk result (λ text. text ≡ line_ends written.now) }
{
    let mut text = String::with_capacity(alloc, written.len())?;
    push_run(TextPlace::Content, written, &mut text)?;
    Ok(Text(text))
}

// Appends what a run without references means.
fn push_run(place: TextPlace, run: &str, text: &mut String) -> Result<(), NoMemory>
    ensures { OnOk result (string_bytes text.new ≡ string_bytes text.old ++ run_in place run.now) }
{
    let mut rest = run;
    while let Some((line, after)) = split_char('\r', rest) {
        push_line(place, line, text)?;
        push_break(place, text)?;
        rest = after_newline(after);
    }
    push_line(place, rest, text)
}

// What is after a carriage return and the line feed that belongs to it.
fn after_newline(text: &str) -> &str
    ensures line { line_ends (carriage_return ∷ text.now) ≡ line_feed ∷ line_ends result.now }
    ensures shorter { length result.now ≤ length text.now }
{
    match text.strip_prefix('\n') {
        Some(rest) => rest,
        None => text,
    }
}

fn push_break(place: TextPlace, text: &mut String) -> Result<(), NoMemory>
    ensures { OnOk result (string_bytes text.new ≡ string_bytes text.old ++ (break_in place ∷ [])) }
{
    match place {
        TextPlace::Content => text.push('\n'),
        TextPlace::Value => text.push(' '),
    }
}

fn push_line(place: TextPlace, line: &str, out: &mut String) -> Result<(), NoMemory>
    ensures { OnOk result (string_bytes out.new ≡ string_bytes out.old ++ line_in place line.now) }
{
    match place {
        TextPlace::Content => out.push_str(line),
        TextPlace::Value => push_spaced(line, out),
    }
}

// Appends a line with its white space as spaces.
fn push_spaced(line: &str, text: &mut String) -> Result<(), NoMemory>
    ensures { OnOk result (string_bytes text.new ≡ string_bytes text.old ++ map as_space line.now) }
{
    let mut rest = line;
    while let Some((front, after)) = split_char('\n', rest) {
        push_untabbed(front, text)?;
        text.push(' ')?;
        rest = after;
    }
    push_untabbed(rest, text)
}

// Appends characters without line feeds, with their tabs as spaces.
fn push_untabbed(line: &str, text: &mut String) -> Result<(), NoMemory>
    requires { AllAre (is_but line_feed) line.now }
    ensures { OnOk result (string_bytes text.new ≡ string_bytes text.old ++ map as_space line.now) }
{
    let mut rest = line;
    while let Some((front, after)) = split_char('\t', rest) {
        text.push_str(front)?;
        text.push(' ')?;
        rest = after;
    }
    text.push_str(rest)
}
