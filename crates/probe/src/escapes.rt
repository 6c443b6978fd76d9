//! Bytes in a line of text: `\n`, `\r`, `\t`, `\\` and `\xHH` stand for what they stand for in Rust.
use std::alloc::{AllocError as NoMemory, Global};

/// The bytes that the text stands for; none where a backslash begins no escape.
pub fn bytes_of(alloc: Global, text: &str) -> Result<Option<Vec<u8>>, NoMemory> {
    let mut bytes = Vec::with_capacity(alloc, text.len())?;
    let mut rest = text.as_bytes();
    for _ in 0..text.len() {
        let Some((byte, after)) = first_of(rest) else {
            break;
        };
        bytes.push(byte)?;
        rest = after;
    }
    Ok(rest.is_empty().then_some(bytes))
}

// The byte that the text begins with, as it is or by its escape, and what follows it.
fn first_of(text: &[u8]) -> Option<(u8, &[u8])> {
    match text {
        [b'\\', b'n', after @ ..] => Some((b'\n', after)),
        [b'\\', b'r', after @ ..] => Some((b'\r', after)),
        [b'\\', b't', after @ ..] => Some((b'\t', after)),
        [b'\\', b'\\', after @ ..] => Some((b'\\', after)),
        [b'\\', b'x', high, low, after @ ..] => Some((byte_of(*high, *low)?, after)),
        [b'\\', ..] | [] => None,
        [byte, after @ ..] => Some((*byte, after)),
    }
}

// The byte of two hexadecimal digits.
fn byte_of(high: u8, low: u8) -> Option<u8> {
    digit_of(high)?.checked_mul(16)?.checked_add(digit_of(low)?)
}

fn digit_of(digit: u8) -> Option<u8> {
    match digit {
        b'0'..=b'9' => Some(digit - b'0'),
        b'a'..=b'f' => Some(digit - b'a' + 10),
        _ => None,
    }
}

/// The bytes as a text of one line: what is UTF-8 stands as it is, but for control characters and the
/// backslash.
pub fn text_of(alloc: Global, bytes: &[u8]) -> Result<String, NoMemory> {
    let mut text = String::new(alloc);
    match std::str::from_utf8(bytes) {
        Ok(whole) => {
            for it in whole.chars() {
                push_char(&mut text, it)?;
            }
        }
        Err(_) => {
            for byte in bytes {
                push_byte(&mut text, *byte)?;
            }
        }
    }
    Ok(text)
}

fn push_char(text: &mut String, it: char) -> Result<(), NoMemory> {
    match it {
        '\n' => text.push_str("\\n"),
        '\r' => text.push_str("\\r"),
        '\t' => text.push_str("\\t"),
        '\\' => text.push_str("\\\\"),
        '\0'..='\x1f' | '\x7f' => write!(text, "\\x{:02x}", u32::from(it)),
        _ => text.push(it),
    }
}

fn push_byte(text: &mut String, byte: u8) -> Result<(), NoMemory> {
    if byte < 0x80 {
        push_char(text, char::from(byte))
    } else {
        write!(text, "\\x{byte:02x}")
    }
}
