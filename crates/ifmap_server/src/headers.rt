//! The headers of frames.
ghost use Rattle.std.specs.Prelude.{◌≡◌, ◌≢◌, ◌<◌, ◌≤◌, ◌^◌, ◌∷◌, ◌++◌, ℕ, List, IfNone, IfOk, IfSome};
ghost use Rattle.std.specs.Fmt.{decimal};
ghost use Rattle.std.specs.Option.{MatchOption};
ghost use Rattle.std.specs.Str.{IsUtf8};
ghost use Rattle.ifmap_elem.specs.Chars.{space_character};
ghost use Rattle.ifmap_io.specs.Calendar.{last_moment};
ghost use Rattle.ifmap_server.specs.declared.headers.Header.{Header};
ghost use Rattle.ifmap_server.specs.Characters.{at_sign};
ghost use Rattle.ifmap_server.specs.Frames.{IsHeader, longest_body, word_text};
ghost use Rattle.ifmap_server.specs.Lines.{AreWords, HasNoSpace};

use ifmap_elem::Text;
use ifmap_io::Moment;
use ifmap_meta::ClientName;
use ifmap_words::decimal_number;
use std::alloc::{AllocError as NoMemory, Global};
use uuid::Uuid;

/// The most bytes that the body of a frame has.
pub const LONGEST_BODY: u64 = 10_000_000;
/// The most bytes that a header has with its newline.
pub const LONGEST_HEADER: usize = 97;

/// What stands before the body of a frame.
#[derive(Debug, Drop)]
pub struct Header {
    pub moment: Moment,
    pub client: ClientName,
    pub random: u128,
    /// The length of the body, at most 10,000,000.
    pub size: u32,
}

/// The header that a line without its newline is; `None` where it is none.
pub fn header_of(alloc: Global, line: &[u8]) -> Result<Option<Header>, NoMemory>
    ensures found { IfOk result (λ found. IfSome found (λ header. IsHeader line.now header)) }
    ensures none { IfOk result (λ found. IfNone found ((header : Header) → IsHeader line.now header
        → ⊥)) }
{
    let Some(words) = split_words(line) else {
        return Ok(None);
    };
    let Some(moment) = moment_of(words.moment) else {
        return Ok(None);
    };
    let Some(random) = hex_word(words.random) else {
        return Ok(None);
    };
    let Some(size) = body_size(words.size) else {
        return Ok(None);
    };
    let Some(client) = ClientName::new(Text::from_str(alloc, words.client)?) else {
        return Ok(None);
    };
    Ok(Some(Header {
        moment,
        client,
        random,
        size,
    }))
}

// The four words of a header.
#[derive(Drop)]
struct Words<'a> {
    moment: &'a str,
    client: &'a str,
    random: &'a str,
    size: &'a str,
}

fn split_words(line: &[u8]) -> Option<Words<'_>>
    ensures { MatchOption result
        (IsUtf8 line.now → (m c r s : List ℕ) → AreWords line.now m c r s → ⊥)
        (λ w. AreWords line.now w.moment.now w.client.now w.random.now w.size.now) }
{
    match std::str::from_utf8(line) {
        Ok(text) => words_in(text),
        Err(_) => None,
    }
}

fn words_in(text: &str) -> Option<Words<'_>>
    ensures { MatchOption result
        ((m c r s : List ℕ) → AreWords text.now m c r s → ⊥)
        (λ w. AreWords text.now w.moment.now w.client.now w.random.now w.size.now) }
{
    let words = after_sign(text)?;
    let (moment, rest) = first_word(words)?;
    let (client, rest) = first_word(rest)?;
    let (random, size) = first_word(rest)?;
    Some(Words {
        moment,
        client,
        random,
        size,
    })
}

// What follows the sign with which a header begins.
#[tactic(auto, using(std::proofs::lemmas::Str::Pattern::strip_prefix_char))]
fn after_sign(text: &str) -> Option<&str>
    ensures { MatchOption result ((rest : List ℕ) → text.now ≢ at_sign ∷ rest)
        (λ rest. text.now ≡ at_sign ∷ rest.now) }
{
    text.strip_prefix('@')
}

// The text before the first space, and what follows the space.
#[tactic(auto, using(std::proofs::lemmas::Str::Pattern::split_parts))]
fn first_word(text: &str) -> Option<(&str, &str)>
    ensures { MatchOption result (HasNoSpace text.now)
        (λ parts. (text.now ≡ parts.0.now ++ space_character ∷ parts.1.now)
        × HasNoSpace parts.0.now) }
{
    text.split_once(' ')
}

fn moment_of(text: &str) -> Option<Moment>
    ensures { MatchOption result
        ((n : ℕ) → n ≤ last_moment → text.now ≢ decimal n)
        (λ n. (n ≤ last_moment) × (text.now ≡ decimal n)) }
{
    Moment::new(decimal_number(text)?)
}

fn body_size(text: &str) -> Option<u32>
    ensures { MatchOption result
        ((n : ℕ) → n ≤ longest_body → text.now ≢ decimal n)
        (λ n. (n ≤ longest_body) × (text.now ≡ decimal n)) }
{
    let size = decimal_number(text)?;
    if size <= LONGEST_BODY {
        Some(size as u32)
    } else {
        None
    }
}

// The word that a text writes in 32 hexadecimal digits in lower case.
fn hex_word(text: &str) -> Option<u128>
    ensures { MatchOption result
        ((n : ℕ) → n < 2 ^ 128 → text.now ≢ word_text n)
        (λ n. (n < 2 ^ 128) × (text.now ≡ word_text n)) }
{
    let Ok(word) = Uuid::try_parse(text) else {
        return None;
    };
    let number = word.as_u128();
    let mut room = Uuid::encode_buffer();
    if Uuid::from_u128(number).simple().encode_lower(&mut room) == text {
        Some(number)
    } else {
        None
    }
}
