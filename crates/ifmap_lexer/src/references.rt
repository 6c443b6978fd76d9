//! References to characters.
ghost use Rattle.std.specs.Prelude.{◌≡◌, ◌≤◌};
ghost use Rattle.ifmap_elem.specs.Values.{by_number, code_point, reference_value};
ghost use Rattle.ifmap_lexer.specs.Numbers.{code_point_of};

use crate::characters::is_allowed;

// The character that a reference stands for, by what is between its `&` and its `;`.
pub(crate) fn character_named(name: &[u8]) -> Option<char>
    ensures { result ≡ reference_value name.now }
{
    if name == b"amp".as_slice() {
        Some('&')
    } else if name == b"lt".as_slice() {
        Some('<')
    } else if name == b"gt".as_slice() {
        Some('>')
    } else if name == b"quot".as_slice() {
        Some('"')
    } else if name == b"apos".as_slice() {
        Some('\'')
    } else {
        character_numbered(name)
    }
}

fn character_numbered(name: &[u8]) -> Option<char>
    ensures { result ≡ by_number name.now }
{
    if name.starts_with(b"#x") {
        character_with_number(16, &name[2..])
    } else if name.starts_with(b"#") {
        character_with_number(10, &name[1..])
    } else {
        None
    }
}

// The character with the number that the digits write.
fn character_with_number(base: u32, digits: &[u8]) -> Option<char>
    requires least { 2 ≤ base }
    requires most { base ≤ 36 }
    ensures { result ≡ code_point base digits.now }
{
    let character = char::from_u32(number_in_base(base, digits)?)?;
    if is_allowed(character) {
        Some(character)
    } else {
        None
    }
}

// A number past those of all characters.
const PAST: u32 = 0x11_0000;

fn number_in_base(base: u32, digits: &[u8]) -> Option<u32>
    requires least { 2 ≤ base }
    requires most { base ≤ 36 }
    ensures { result ≡ code_point_of base digits.now }
{
    if digits.is_empty() {
        return None;
    }
    let mut number: u32 = 0;
    for digit in digits {
        let value = (*digit as char).to_digit(base)?;
        number = (number * base + value).min(PAST);
    }
    Some(number)
}
