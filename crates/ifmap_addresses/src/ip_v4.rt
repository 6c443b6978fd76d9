//! IPv4 addresses.
ghost use Rattle.std.specs.Prelude.{◌≡◌, ◌++◌, ◌≤◌, ℕ, List, IfSome, IsNone, OnOk, codes, decimal, length, string_bytes};
ghost use Rattle.std.specs.Cmp.Lexicographic.{slice_cmp};
ghost use Rattle.std.specs.Ordering.{nat_cmp};
ghost use Rattle.ifmap_addresses.specs.IpV4.{IsIpV4, ip_v4_text};

use itoa::Buffer;
use std::alloc::AllocError as NoMemory;
use std::cmp::Ordering;
use std::net::Ipv4Addr;

/// The address that a text is; `None` exactly where it is none. A text is one in the dotted decimal
/// form of RFC 3986, section 3.2.2, without leading zeros.
pub fn ip_v4_of(text: &str) -> Option<[u8; 4]>
    ensures found { IfSome result (IsIpV4 text.now) }
    ensures none { IsNone result → (value : List ℕ) → ¬ (IsIpV4 text.now value) }
{
    match Ipv4Addr::parse_ascii(text.as_bytes()) {
        Ok(address) => Some(address.octets()),
        Err(_) => None,
    }
}

/// Appends the text of an address. The one error is want of memory; the text may then have a part of
/// it.
pub fn push_ip_v4(value: &[u8; 4], text: &mut String) -> Result<(), NoMemory>
    ensures { OnOk result (
        string_bytes text.new ≡ string_bytes text.old ++ ip_v4_text value.now) }
{
    let [a, b, c, d] = *value;
    text.push_str(Buffer::new().format(a))?;
    push_after_dot(b, text)?;
    push_after_dot(c, text)?;
    push_after_dot(d, text)
}

// Appends a dot and a number.
fn push_after_dot(number: u8, text: &mut String) -> Result<(), NoMemory>
    ensures { OnOk result (string_bytes text.new
        ≡ string_bytes text.old ++ (codes "." ++ decimal number)) }
{
    text.push('.')?;
    text.push_str(Buffer::new().format(number))
}

/// How long the text of an address is.
pub fn ip_v4_len(value: &[u8; 4]) -> usize
    ensures { result ≡ length (ip_v4_text value.now) }
{
    let [a, b, c, d] = *value;
    number_len(a) + number_len(b) + number_len(c) + number_len(d) + b"...".len()
}

fn number_len(number: u8) -> usize
    ensures value { result ≡ length (decimal number) }
    ensures within { result ≤ 40 }
{
    Buffer::new().format(number).len()
}

/// How the texts of two addresses compare.
pub fn ip_v4_order(one: &[u8; 4], other: &[u8; 4]) -> Ordering
    ensures { result ≡ slice_cmp nat_cmp (ip_v4_text one.now) (ip_v4_text other.now) }
{
    let [a, b, c, d] = *one;
    let [e, f, g, h] = *other;
    number_order(a, e)
        .then(number_order(b, f))
        .then(number_order(c, g))
        .then(number_order(d, h))
}

// How two numbers compare as they are written.
fn number_order(one: u8, other: u8) -> Ordering
    ensures { result ≡ slice_cmp nat_cmp (decimal one) (decimal other) }
{
    if one == other {
        return Ordering::Equal;
    }
    let mut text = Buffer::new();
    let mut other_text = Buffer::new();
    text.format(one)
        .as_bytes()
        .cmp(other_text.format(other).as_bytes())
}
