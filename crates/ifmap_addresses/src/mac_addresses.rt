//! MAC addresses.
ghost use Rattle.std.specs.Prelude.{◌≡◌, ◌++◌, ◌<◌, ℕ, List, IfSome, IsNone, OnOk, codes, length, string_bytes};
ghost use Rattle.std.specs.Cmp.Lexicographic.{slice_cmp};
ghost use Rattle.std.specs.Ordering.{nat_cmp};
ghost use Rattle.std.specs.Str.{str_to_ascii_lowercase};
ghost use Rattle.ifmap_addresses.specs.MacAddresses.{IsMacAddress, hex_pair, mac_address_text};

use crate::digits::hex_digit;
use std::alloc::AllocError as NoMemory;
use std::cmp::Ordering;

/// The address that a text is; `None` exactly where it is none. A text is one of six bytes (EUI-48 of
/// IEEE Std 802, section 8.1) as two hexadecimal digits each, in either case, with colons.
pub fn mac_address_of(text: &str) -> Option<[u8; 6]>
    ensures found { IfSome result (IsMacAddress text.now) }
    ensures none { IsNone result → (value : List ℕ) → ¬ (IsMacAddress text.now value) }
{
    let (a, rest) = pair_of(text.as_bytes())?;
    let (b, rest) = next_pair(rest)?;
    let (c, rest) = next_pair(rest)?;
    let (d, rest) = next_pair(rest)?;
    let (e, rest) = next_pair(rest)?;
    let (f, rest) = next_pair(rest)?;
    if !rest.is_empty() {
        return None;
    }
    Some([a, b, c, d, e, f])
}

// The byte that two digits at the front write, and what stands after them.
fn pair_of(text: &[u8]) -> Option<(u8, &[u8])>
    ensures found { IfSome result (λ read. str_to_ascii_lowercase text.now
        ≡ hex_pair read.0 ++ str_to_ascii_lowercase read.1.now) }
    ensures none { IsNone result → (b : ℕ) (rest : List ℕ) → b < 256
        → ¬ (str_to_ascii_lowercase text.now ≡ hex_pair b ++ rest) }
{
    let [high, low, rest @ ..] = text else {
        return None;
    };
    let high = char::from(*high).to_digit(16)?;
    let low = char::from(*low).to_digit(16)?;
    Some(((high * 16 + low) as u8, rest))
}

// The byte that two digits after a colon write, and what stands after them.
fn next_pair(text: &[u8]) -> Option<(u8, &[u8])>
    ensures found { IfSome result (λ read. str_to_ascii_lowercase text.now
        ≡ codes ":" ++ (hex_pair read.0 ++ str_to_ascii_lowercase read.1.now)) }
    ensures none { IsNone result → (b : ℕ) (rest : List ℕ) → b < 256
        → ¬ (str_to_ascii_lowercase text.now ≡ codes ":" ++ (hex_pair b ++ rest)) }
{
    match text {
        [b':', rest @ ..] => pair_of(rest),
        _ => None,
    }
}

/// Appends the text of an address, in lower case. The one error is want of memory; the text may then
/// have a part of it.
pub fn push_mac_address(value: &[u8; 6], text: &mut String) -> Result<(), NoMemory>
    ensures { OnOk result (string_bytes text.new
        ≡ string_bytes text.old ++ mac_address_text value.now) }
{
    push_pairs(value, text)
}

// Appends bytes as two digits each, with a colon between each two.
fn push_pairs(bytes: &[u8], text: &mut String) -> Result<(), NoMemory>
    ensures { OnOk result (string_bytes text.new
        ≡ string_bytes text.old ++ mac_address_text bytes.now) }
{
    let Some((first, rest)) = bytes.split_first() else {
        return Ok(());
    };
    push_pair(*first, text)?;
    for byte in rest {
        text.push(':')?;
        push_pair(*byte, text)?;
    }
    Ok(())
}

// Appends a byte as two digits.
fn push_pair(byte: u8, text: &mut String) -> Result<(), NoMemory>
    ensures { OnOk result (string_bytes text.new ≡ string_bytes text.old ++ hex_pair byte) }
{
    let byte = u16::from(byte);
    text.push(char::from(hex_digit(byte / 16)))?;
    text.push(char::from(hex_digit(byte % 16)))
}

/// How long the text of an address is.
pub fn mac_address_len(value: &[u8; 6]) -> usize
    ensures { result ≡ length (mac_address_text value.now) }
{
    3 * value.len() - 1
}

/// How the texts of two addresses compare.
pub fn mac_address_order(one: &[u8; 6], other: &[u8; 6]) -> Ordering
    ensures { result ≡ slice_cmp nat_cmp (mac_address_text one.now) (mac_address_text other.now) }
{
    one.cmp(other)
}
