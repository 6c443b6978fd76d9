//! How far runs go: white space, a byte, a word.
ghost use Rattle.std.specs.Prelude.{◌≡◌, ◌<◌, ◌≤◌, ◌+◌, IfNone, IfSome, codes, length, take, drop};
ghost use Rattle.std.specs.Bool.{OnFalse, OnTrue};
ghost use Rattle.std.specs.List.{prefix_len};
ghost use Rattle.ifmap_elem.specs.Chars.{AllAre, is_white};
ghost use Rattle.ifmap_elem.specs.Tokens.{Lacks};
ghost use Rattle.ifmap_lexer.specs.Cutting.{Cuts, CutsAt, CutsWord, is_but};

use ifmap_elem::white_space::is_white;
use memchr::{memchr, memmem};

// The white space at the front, and what is left.
pub(crate) fn split_white(bytes: &[u8]) -> (&[u8], &[u8])
    ensures { Cuts is_white bytes.now result.0.now result.1.now }
{
    bytes.split_at(white_len(bytes))
}

fn white_len(bytes: &[u8]) -> usize
    ensures { result ≡ prefix_len is_white bytes.now }
{
    bytes.iter().take_while(|byte| is_white(**byte)).count()
}

// The bytes before the first such byte, and what is left.
pub(crate) fn split_byte(byte: u8, bytes: &[u8]) -> (&[u8], &[u8])
    ensures { Cuts (is_but byte) bytes.now result.0.now result.1.now }
{
    match memchr(byte, bytes) {
        Some(place) => bytes.split_at(place),
        None => bytes.split_at(bytes.len()),
    }
}

// The text before the first such ASCII character, and that after it.
pub(crate) fn split_char(character: char, text: &str) -> Option<(&str, &str)>
    requires { character < 128 }
    ensures found { IfSome result (λ s. CutsAt character text.now s.0.now s.1.now) }
    ensures none { IfNone result (AllAre (is_but character) text.now) }
{
    text.split_once(character)
}

// The bytes before the first place of the word, and those after it.
pub(crate) fn split_word<'a>(word: &[u8], bytes: &'a [u8]) -> Option<(&'a [u8], &'a [u8])>
    requires { 0 < length word.now }
    ensures found { IfSome result (λ s. CutsWord word.now bytes.now s.0.now s.1.now) }
    ensures none { IfNone result (Lacks word.now bytes.now) }
{
    match memmem::find(bytes, word) {
        Some(place) => Some(split_round(place, word.len(), bytes)),
        None => None,
    }
}

// The bytes before the first such byte, and those after it.
pub(crate) fn split_round_byte(byte: u8, bytes: &[u8]) -> Option<(&[u8], &[u8])>
    ensures found { IfSome result (λ s. CutsAt byte bytes.now s.0.now s.1.now) }
    ensures none { IfNone result (AllAre (is_but byte) bytes.now) }
{
    match memchr(byte, bytes) {
        Some(place) => Some(split_round(place, 1, bytes)),
        None => None,
    }
}

// Whether the byte stands somewhere.
pub(crate) fn has_byte(byte: u8, bytes: &[u8]) -> bool
    ensures yes { OnTrue result (AllAre (is_but byte) bytes.now → ⊥) }
    ensures no { OnFalse result (AllAre (is_but byte) bytes.now) }
{
    split_round_byte(byte, bytes).is_some()
}

// Whether the word begins somewhere.
pub(crate) fn has_word(word: &[u8], bytes: &[u8]) -> bool
    requires { 0 < length word.now }
    ensures yes { OnTrue result (Lacks word.now bytes.now → ⊥) }
    ensures no { OnFalse result (Lacks word.now bytes.now) }
{
    split_word(word, bytes).is_some()
}

// Whether the end of a section stands somewhere. Most texts have no bracket, which is soon seen.
#[tactic(auto, using(crate::proofs::WordLaws::lacks_section_end))]
pub(crate) fn has_section_end(bytes: &[u8]) -> bool
    ensures yes { OnTrue result (Lacks (codes "]]>") bytes.now → ⊥) }
    ensures no { OnFalse result (Lacks (codes "]]>") bytes.now) }
{
    if !has_byte(b']', bytes) {
        return false;
    }
    has_word(b"]]>", bytes)
}

// The bytes before a place, and those after as many from there on.
fn split_round(place: usize, len: usize, bytes: &[u8]) -> (&[u8], &[u8])
    requires { place + len ≤ length bytes.now }
    ensures front { result.0.now ≡ take place bytes.now }
    ensures after { result.1.now ≡ drop len (drop place bytes.now) }
{
    let (front, rest) = bytes.split_at(place);
    let (_between, after) = rest.split_at(len);
    (front, after)
}
