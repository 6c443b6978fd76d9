//! Bytes that are characters of a document.
ghost use Rattle.std.specs.Prelude.{◌≡◌, ◌↔◌, IfNone, IfSome, IsTrue};
ghost use Rattle.std.specs.Bool.{OnTrue};
ghost use Rattle.ifmap_elem.specs.Chars.{AllAre, IsCharacters, is_character};
ghost use Rattle.ifmap_lexer.specs.Common.{is_common};

// The bytes as text, where they are characters that a document can have.
#[tactic(auto, using(ifmap_elem::specs::laws::CharacterLaws::characters_are_utf8))]
pub(crate) fn characters(bytes: &[u8]) -> Option<&str>
    ensures found { IfSome result (λ text. (text.now ≡ bytes.now) × IsCharacters bytes.now) }
    ensures none { IfNone result (IsCharacters bytes.now → ⊥) }
{
    match str::from_utf8(bytes) {
        Ok(text) => {
            if are_characters(text) {
                Some(text)
            } else {
                None
            }
        }
        Err(_) => None,
    }
}

#[tactic(auto, using(crate::proofs::CharacterLaws::common_are_characters))]
fn are_characters(text: &str) -> bool
    ensures { IsTrue result ↔ IsCharacters text.now }
{
    if are_common(text.as_bytes()) {
        return true;
    }
    are_allowed(text)
}

// Without a branch for each byte it becomes vector code.
#[tactic(auto, using(crate::proofs::CharacterLaws::all_more))]
fn are_common(bytes: &[u8]) -> bool
    ensures { OnTrue result (AllAre is_common bytes.now) }
{
    let mut uncommon = false;
    for byte in bytes {
        let b = *byte;
        uncommon |= ((b < b' ') & (b != b'\t') & (b != b'\n') & (b != b'\r')) | (b == 0xEF);
    }
    !uncommon
}

fn are_allowed(text: &str) -> bool
    ensures { IsTrue result ↔ IsCharacters text.now }
{
    text.chars().all(|c| is_allowed(c))
}

pub(crate) fn is_allowed(character: char) -> bool
    ensures { result ≡ is_character character }
{
    matches!(
        character,
        '\t' | '\n'
            | '\r'
            | ' '..='\u{D7FF}'
            | '\u{E000}'..='\u{FFFD}'
            | '\u{1_0000}'..='\u{10_FFFF}'
    )
}
