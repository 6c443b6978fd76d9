//! Attributes that an empty value leaves out, compared and measured as they are written.
ghost use Rattle.std.specs.Prelude.{◌≡◌, ◌-◌, ◌^◌, length, min};
ghost use Rattle.ifmap_ident.specs.Written.{OptionalsLead, attribute_written, optional_written};

use crate::written::{text_len, text_order};
use ifmap_elem::{Text, TextPlace};
use std::cmp::Ordering;

// How the attributes of one name with these two values compare, each before one whose name has a
// greater first letter: the empty value comes after all others.
pub(crate) fn optional_order(one: &Text, other: &Text) -> Ordering
    ensures { OptionalsLead result one.now other.now }
{
    match (one.is_empty(), other.is_empty()) {
        (true, true) => Ordering::Equal,
        (true, false) => Ordering::Greater,
        (false, true) => Ordering::Less,
        (false, false) => text_order(TextPlace::Value, one, other),
    }
}

// How many bytes the attribute of this name and value has; at most 2^64 - 1.
pub(crate) fn optional_len(local: &str, value: &Text) -> u64
    ensures { result ≡ min (length (optional_written local.now value.now)) (2 ^ 64 - 1) }
{
    if value.is_empty() {
        return 0;
    }
    attribute_len(local, value)
}

// The same of an attribute that is always written.
pub(crate) fn attribute_len(local: &str, value: &Text) -> u64
    ensures { result ≡ min (length (attribute_written local.now value.now)) (2 ^ 64 - 1) }
{
    let around = b" =\"\"".len() as u64;
    text_len(TextPlace::Value, value)
        .saturating_add(local.len() as u64)
        .saturating_add(around)
}
