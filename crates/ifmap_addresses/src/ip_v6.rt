//! IPv6 addresses.
ghost use Rattle.std.specs.Prelude.{◌≡◌, ◌++◌, ◌<◌, ◌≤◌, ℕ, List, IfSome, IsNone, OnOk, codes, length, string_bytes};
ghost use Rattle.std.specs.Char.{digit_char};
ghost use Rattle.std.specs.Cmp.Lexicographic.{slice_cmp};
ghost use Rattle.std.specs.Net.Text.{hex, leading_zero_digits};
ghost use Rattle.std.specs.Ordering.{nat_cmp};
ghost use Rattle.ifmap_addresses.specs.IpV6.{IsIpV6, four_hex_digits, ip_v6_text};

use crate::digits::hex_digit;
use std::alloc::AllocError as NoMemory;
use std::cmp::Ordering;
use std::net::Ipv6Addr;

/// The address that a text is; `None` exactly where it is none. A text is one in the first two forms
/// of RFC 4291, section 2.2: not in the third, which ends as an IPv4 address.
pub fn ip_v6_of(text: &str) -> Option<[u16; 8]>
    ensures found { IfSome result (IsIpV6 text.now) }
    ensures none { IsNone result → (value : List ℕ) → ¬ (IsIpV6 text.now value) }
{
    if text.as_bytes().contains(&b'.') {
        return None;
    }
    match Ipv6Addr::parse_ascii(text.as_bytes()) {
        Ok(address) => Some(address.segments()),
        Err(_) => None,
    }
}

/// Appends the text of an address: all eight groups, in lower case and without leading zeros as in
/// RFC 5952, sections 4.1 and 4.3, but never with `::`. The one error is want of memory; the text may
/// then have a part of it.
pub fn push_ip_v6(value: &[u16; 8], text: &mut String) -> Result<(), NoMemory>
    ensures { OnOk result (
        string_bytes text.new ≡ string_bytes text.old ++ ip_v6_text value.now) }
{
    push_groups(value, text)
}

// Appends groups, with a colon between each two.
fn push_groups(groups: &[u16], text: &mut String) -> Result<(), NoMemory>
    ensures { OnOk result (
        string_bytes text.new ≡ string_bytes text.old ++ ip_v6_text groups.now) }
{
    let Some((first, rest)) = groups.split_first() else {
        return Ok(());
    };
    push_group(*first, text)?;
    for group in rest {
        text.push(':')?;
        push_group(*group, text)?;
    }
    Ok(())
}

// Appends a group without leading zeros.
fn push_group(group: u16, text: &mut String) -> Result<(), NoMemory>
    ensures { OnOk result (string_bytes text.new ≡ string_bytes text.old ++ hex group) }
{
    let digits = closed_group(group);
    for digit in &digits[leading_zeros(group)..4] {
        text.push(char::from(*digit))?;
    }
    Ok(())
}

/// How long the text of an address is.
pub fn ip_v6_len(value: &[u16; 8]) -> usize
    ensures { result ≡ length (ip_v6_text value.now) }
{
    let mut len = b":::::::".len();
    for group in value {
        len += group_len(*group);
    }
    len
}

fn group_len(group: u16) -> usize
    ensures value { result ≡ length (hex group) }
    ensures within { result ≤ 4 }
{
    4 - leading_zeros(group)
}

/// How the texts of two addresses compare.
pub fn ip_v6_order(one: &[u16; 8], other: &[u16; 8]) -> Ordering
    ensures { result ≡ slice_cmp nat_cmp (ip_v6_text one.now) (ip_v6_text other.now) }
{
    let mut order = Ordering::Equal;
    for i in 0..7 {
        order = order.then(inner_order(one[i], other[i]));
    }
    order.then(last_order(one[7], other[7]))
}

// How two groups compare as they are written, with the colon after each.
fn inner_order(one: u16, other: u16) -> Ordering
    ensures { result ≡ slice_cmp nat_cmp (hex one ++ codes ":") (hex other ++ codes ":") }
{
    if one == other {
        return Ordering::Equal;
    }
    let digits = closed_group(one);
    let other_digits = closed_group(other);
    digits[leading_zeros(one)..].cmp(&other_digits[leading_zeros(other)..])
}

// How two groups compare as they are written, with nothing after them.
fn last_order(one: u16, other: u16) -> Ordering
    ensures { result ≡ slice_cmp nat_cmp (hex one) (hex other) }
{
    if one == other {
        return Ordering::Equal;
    }
    let digits = closed_group(one);
    let other_digits = closed_group(other);
    digits[leading_zeros(one)..4].cmp(&other_digits[leading_zeros(other)..4])
}

// The four digits of a group, and a colon.
fn closed_group(group: u16) -> [u8; 5]
    ensures { result ≡ four_hex_digits group ++ codes ":" }
{
    [
        hex_digit(group / 0x1000),
        hex_digit(group / 0x100 % 16),
        hex_digit(group / 0x10 % 16),
        hex_digit(group % 16),
        b':',
    ]
}

// How many of a group's four digits are zeros that are not written.
fn leading_zeros(group: u16) -> usize
    ensures value { result ≡ leading_zero_digits group }
    ensures within { result < 4 }
{
    match group {
        0x1000.. => 0,
        0x100.. => 1,
        0x10.. => 2,
        _ => 3,
    }
}
