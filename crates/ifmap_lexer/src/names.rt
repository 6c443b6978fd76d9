//! Names as they are written.
ghost use Rattle.std.specs.Prelude.{◌≡◌, ◌&&◌, ◌++◌, ◌↔◌, ℕ, List, IfErr, IfOk, IfSome, IsTrue};
ghost use Rattle.std.specs.List.{list_all, prefix_len};
ghost use Rattle.ifmap_elem.specs.declared.tokens.Qualified.{Qualified};
ghost use Rattle.ifmap_elem.specs.Names.{IsNamePart, IsQualified, is_name_start, is_name_character, name_bytes};
ghost use Rattle.ifmap_lexer.specs.There.{BeginsNamed, NameAt, SomeName, AreQualifiedName};
ghost use Rattle.ifmap_lexer.specs.Cutting.{Cuts};
ghost use Rattle.std.specs.Bool.{OnTrue};
ghost use Rattle.ifmap_elem.specs.laws.NameBytes.{is_name_byte};
ghost use Rattle.ifmap_lexer.specs.Names.{stands_in_ascii, starts_in_ascii};
ghost use Rattle.ifmap_lexer.specs.Refusing.{Refuses};

use crate::errors::LexError;
use crate::splitting::split_round_byte;
use ifmap_elem::Text;
use ifmap_elem::fronts::after_word;
use ifmap_elem::tokens::Qualified;
use std::alloc::Global;

// The qualified name at the front, and what is left.
pub(crate) fn name_of(alloc: Global, bytes: &[u8]) -> Result<(Qualified, &[u8]), LexError>
    ensures found { IfOk result (λ f. NameAt bytes.now f.0 f.1.now) }
    ensures refused { IfErr result (λ e. Refuses e (SomeName bytes.now)) }
{
    let (run, rest) = split_name(bytes);
    let name = qualified_name(alloc, run)?;
    Ok((name, rest))
}

// What is after the name with these parts, where it stands at the front and is of ASCII alone.
pub(crate) fn after_ascii_name<'a>(prefix: &[u8], local: &[u8], bytes: &'a [u8]) -> Option<&'a [u8]>
    ensures { IfSome result (λ rest. BeginsNamed prefix.now local.now bytes.now rest.now) }
{
    if prefix.is_empty() {
        return after_ascii_part(local, bytes);
    }
    let after_prefix = after_ascii_part(prefix, bytes)?;
    let after_colon = after_word(b":", after_prefix)?;
    after_ascii_part(local, after_colon)
}

// What is after a name part, where it stands at the front and is of ASCII alone.
fn after_ascii_part<'a>(part: &[u8], bytes: &'a [u8]) -> Option<&'a [u8]>
    ensures { IfSome result (λ rest. IsNamePart part.now × (bytes.now ≡ part.now ++ rest.now)) }
{
    if !is_ascii_part(part) {
        return None;
    }
    after_word(part, bytes)
}

// The bytes at the front that a name may have, and what is left.
fn split_name(bytes: &[u8]) -> (&[u8], &[u8])
    ensures { Cuts is_name_byte bytes.now result.0.now result.1.now }
{
    bytes.split_at(name_len(bytes))
}

fn name_len(bytes: &[u8]) -> usize
    ensures { result ≡ prefix_len is_name_byte bytes.now }
{
    bytes.iter().take_while(|byte| may_be_named(**byte)).count()
}

// Each byte that a name may have at its own place, `~` for one of a character beyond ASCII, and a comma
// for any other.
static NAME_BYTES: [u8; 256] = *b"\
    ,,,,,,,,,,,,,,,,,,,,,,,,,,,,,,,,\
    ,,,,,,,,,,,,,-.,0123456789:,,,,,\
    ,ABCDEFGHIJKLMNOPQRSTUVWXYZ,,,,_\
    ,abcdefghijklmnopqrstuvwxyz,,,,,\
    ~~~~~~~~~~~~~~~~~~~~~~~~~~~~~~~~\
    ~~~~~~~~~~~~~~~~~~~~~~~~~~~~~~~~\
    ~~~~~~~~~~~~~~~~~~~~~~~~~~~~~~~~\
    ~~~~~~~~~~~~~~~~~~~~~~~~~~~~~~~~";

// Each byte that stands for a character of a name part, and a comma for any other.
static PART_BYTES: [u8; 256] = *b"\
    ,,,,,,,,,,,,,,,,,,,,,,,,,,,,,,,,\
    ,,,,,,,,,,,,,-.,0123456789,,,,,,\
    ,ABCDEFGHIJKLMNOPQRSTUVWXYZ,,,,_\
    ,abcdefghijklmnopqrstuvwxyz,,,,,\
    ,,,,,,,,,,,,,,,,,,,,,,,,,,,,,,,,\
    ,,,,,,,,,,,,,,,,,,,,,,,,,,,,,,,,\
    ,,,,,,,,,,,,,,,,,,,,,,,,,,,,,,,,\
    ,,,,,,,,,,,,,,,,,,,,,,,,,,,,,,,,";

fn may_be_named(byte: u8) -> bool
    ensures { result ≡ is_name_byte byte }
{
    NAME_BYTES[byte as usize] != b','
}

// The name that is written so.
fn qualified_name(alloc: Global, bytes: &[u8]) -> Result<Qualified, LexError>
    ensures found { IfOk result (λ name. IsQualified name × (name_bytes name ≡ bytes.now)) }
    ensures refused { IfErr result (λ e. Refuses e (AreQualifiedName bytes.now)) }
{
    match split_round_byte(b':', bytes) {
        Some((prefix, local)) => {
            let prefix = name_part(alloc, prefix)?;
            let local = name_part(alloc, local)?;
            Ok(Qualified { prefix, local })
        }
        None => {
            let local = name_part(alloc, bytes)?;
            let prefix = Text::new(alloc);
            Ok(Qualified { prefix, local })
        }
    }
}

// The name part that is written so.
#[tactic(auto, using(crate::proofs::NameLaws::part_is_utf8))]
fn name_part(alloc: Global, bytes: &[u8]) -> Result<Text, LexError>
    ensures found { IfOk result (λ text. (text ≡ bytes.now) × IsNamePart bytes.now) }
    ensures refused { IfErr result (λ e. Refuses e (IsNamePart bytes.now)) }
{
    match str::from_utf8(bytes) {
        Ok(text) => {
            if is_name_part(text) {
                Ok(Text(String::from_str(alloc, text)?))
            } else {
                Err(LexError::Malformed)
            }
        }
        Err(_) => Err(LexError::Malformed),
    }
}

// Whether the bytes are a name part of ASCII alone, as most names are.
#[tactic(auto, using(crate::proofs::NameLaws::ascii_tells))]
fn is_ascii_part(bytes: &[u8]) -> bool
    ensures { OnTrue result (IsNamePart bytes.now) }
{
    let Some((first, others)) = bytes.split_first() else {
        return false;
    };
    is_ascii_run(*first, others)
}

fn is_ascii_run(first: u8, others: &[u8]) -> bool
    ensures { result ≡ (starts_in_ascii first && list_all stands_in_ascii others.now) }
{
    is_ascii_first(first) && are_ascii_inner(others)
}

fn are_ascii_inner(bytes: &[u8]) -> bool
    ensures { result ≡ list_all stands_in_ascii bytes.now }
{
    bytes.iter().all(|byte| is_ascii_inner(*byte))
}

fn is_ascii_first(byte: u8) -> bool
    ensures { result ≡ starts_in_ascii byte }
{
    byte < 128 && is_name_start(byte as char)
}

#[inline(always)]
fn is_ascii_inner(byte: u8) -> bool
    ensures { result ≡ stands_in_ascii byte }
{
    PART_BYTES[byte as usize] != b','
}

fn is_name_part(text: &str) -> bool
    ensures { IsTrue result ↔ IsNamePart text.now }
{
    if is_ascii_part(text.as_bytes()) {
        return true;
    }
    is_any_name_part(text)
}

fn is_any_name_part(text: &str) -> bool
    ensures { IsTrue result ↔ IsNamePart text.now }
{
    let mut characters = text.chars();
    match characters.next() {
        Some(first) => is_name_start(first) && characters.all(|c| is_name_character(c)),
        None => false,
    }
}

/// Whether a name part may begin with the character.
pub fn is_name_start(character: char) -> bool
    ensures { result ≡ is_name_start character }
{
    matches!(
        character,
        'A'..='Z'
            | '_'
            | 'a'..='z'
            | '\u{C0}'..='\u{D6}'
            | '\u{D8}'..='\u{F6}'
            | '\u{F8}'..='\u{2FF}'
            | '\u{370}'..='\u{37D}'
            | '\u{37F}'..='\u{1FFF}'
            | '\u{200C}'..='\u{200D}'
            | '\u{2070}'..='\u{218F}'
            | '\u{2C00}'..='\u{2FEF}'
            | '\u{3001}'..='\u{D7FF}'
            | '\u{F900}'..='\u{FDCF}'
            | '\u{FDF0}'..='\u{FFFD}'
            | '\u{1_0000}'..='\u{E_FFFF}'
    )
}

/// Whether the character may stand in a name part.
// Most are small letters.
#[inline(always)]
pub fn is_name_character(character: char) -> bool
    ensures { result ≡ is_name_character character }
{
    matches!(character, 'a'..='z') || is_any_inner(character)
}

#[inline(never)]
fn is_any_inner(character: char) -> bool
    ensures { result ≡ is_name_character character }
{
    is_name_start(character)
        || matches!(
            character,
            '-' | '.'
                | '0'..='9'
                | '\u{B7}'
                | '\u{300}'..='\u{36F}'
                | '\u{203F}'..='\u{2040}'
        )
}
