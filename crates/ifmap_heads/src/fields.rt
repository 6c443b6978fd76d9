//! What the fields of a head say.
ghost use Rattle.std.specs.Prelude.{◌≡◌, ◌^◌, ◌<◌, ◌≤◌, ◌+◌, ◌∷◌, [], IfSome, codes, drop, length, map, reverse, take, None, Some, if◌then◌else◌};
ghost use Rattle.std.specs.List.{list_all, list_any};
ghost use Rattle.std.specs.Option.{MatchOption};
ghost use Rattle.std.specs.Str.{bytes_eq, str_eq_ignore_ascii_case};
ghost use Rattle.std.specs.Str.Parse.{digits_value};
ghost use Rattle.httparse.specs.Borrowed.{header_parts};
ghost use Rattle.httparse.specs.Grammar.{skip_ows, trim_ows};
ghost use Rattle.ifmap_lemmas.specs.Separated.{comma_parts};
ghost use Rattle.ifmap_heads.specs.Fields.{common_length, has_field, is_length, lists_word, values, writes_number};

use httparse::{Header, is_space_or_tab};

// A value of a name, and the fields after it.
#[derive(Clone, Copy)]
pub(crate) struct Named<'s, 'b> {
    pub value: &'b [u8],
    pub rest: &'s [Header<'b>],
}

// The first field of that name.
pub(crate) fn next_value<'s, 'b>(name: &[u8], headers: &'s [Header<'b>]) -> Option<Named<'s, 'b>>
    ensures value { MatchOption result
        (values name.now (map header_parts headers.now) ≡ [])
        (λ named. values name.now (map header_parts headers.now)
        ≡ named.value.now ∷ values name.now (map header_parts named.rest.now)) }
    ensures shorter { MatchOption result (Unit {0})
        (λ named. length named.rest.now < length headers.now) }
{
    for (i, header) in headers.iter().enumerate() {
        if is_same_word(header.name.as_bytes(), name) {
            return Some(Named {
                value: header.value,
                rest: &headers[i + 1..],
            });
        }
    }
    None
}

// There is a field of that name.
pub(crate) fn has_field(name: &[u8], headers: &[Header<'_>]) -> bool
    ensures { result ≡ has_field name.now (map header_parts headers.now) }
{
    next_value(name, headers).is_some()
}

// Each field of the name has that value.
pub(crate) fn has_only_value(name: &[u8], value: &[u8], headers: &[Header<'_>]) -> bool
    ensures { result ≡ list_all (λ v. bytes_eq v value.now)
        (values name.now (map header_parts headers.now)) }
{
    for header in headers {
        if is_same_word(header.name.as_bytes(), name) && header.value != value {
            return false;
        }
    }
    true
}

// Some field of the name lists the word.
pub(crate) fn lists(name: &[u8], word: &[u8], headers: &[Header<'_>]) -> bool
    ensures { result ≡ list_any (lists_word word.now)
        (values name.now (map header_parts headers.now)) }
{
    for header in headers {
        if is_same_word(header.name.as_bytes(), name) && lists_word(word, header.value) {
            return true;
        }
    }
    false
}

// The number that the fields of the name write.
pub(crate) fn common_length(name: &[u8], headers: &[Header<'_>]) -> Option<u64>
    ensures { result ≡ common_length (values name.now (map header_parts headers.now)) }
{
    let first = next_value(name, headers)?;
    let number = read_length(first.value)?;
    if all_write(number, name, headers) {
        Some(number)
    } else {
        None
    }
}

// Each field of the name writes that number.
fn all_write(number: u64, name: &[u8], headers: &[Header<'_>]) -> bool
    ensures { result ≡ list_all (writes_number number)
        (values name.now (map header_parts headers.now)) }
{
    for header in headers {
        if is_same_word(header.name.as_bytes(), name) && !writes_number(number, header.value) {
            return false;
        }
    }
    true
}

// The value is a length, and that number.
fn writes_number(number: u64, value: &[u8]) -> bool
    ensures { result ≡ writes_number number value.now }
{
    match read_length(value) {
        Some(written) => written == number,
        None => false,
    }
}

// The number that one to eighteen digits write.
fn read_length(value: &[u8]) -> Option<u64>
    ensures value { result ≡ (if is_length value.now
        then Some (digits_value 10 value.now) else None) }
{
    if value.is_empty() || value.len() > 18 {
        return None;
    }
    let mut number = 0;
    for byte in value {
        if !byte.is_ascii_digit() {
            return None;
        }
        number = number * 10 + u64::from(*byte - b'0');
    }
    Some(number)
}

// The value lists the word.
fn lists_word(word: &[u8], value: &[u8]) -> bool
    ensures { result ≡ lists_word word.now value.now }
{
    let mut rest = value;
    'parts: while let Some(comma) = comma_place(rest) {
        if is_same_word(trim_ows(&rest[..comma]), word) {
            return true;
        }
        rest = &rest[comma + 1..];
    }
    is_same_word(trim_ows(rest), word)
}

// The place of the first comma.
fn comma_place(bytes: &[u8]) -> Option<usize>
    ensures within { IfSome result (λ comma. comma < length bytes.now) }
    ensures small { IfSome result (λ comma. comma < 2 ^ 63) }
    ensures parts { MatchOption result (comma_parts bytes.now ≡ bytes.now ∷ [])
        (λ comma. comma_parts bytes.now
        ≡ take comma bytes.now ∷ comma_parts (drop (comma + 1) bytes.now)) }
{
    for (i, byte) in bytes.iter().enumerate() {
        if *byte == b',' {
            return Some(i);
        }
    }
    None
}

// The bytes without the spaces and tabs at both ends.
fn trim_ows(bytes: &[u8]) -> &[u8]
    ensures { result.now ≡ trim_ows bytes.now }
{
    trim_ows_end(trim_ows_start(bytes))
}

// The bytes without the spaces and tabs in front.
fn trim_ows_start(bytes: &[u8]) -> &[u8]
    ensures { result.now ≡ skip_ows bytes.now }
{
    let mut start = 0;
    while start < bytes.len() && is_space_or_tab(bytes[start]) {
        start += 1;
    }
    &bytes[start..]
}

// The bytes without the spaces and tabs at the end.
fn trim_ows_end(bytes: &[u8]) -> &[u8]
    ensures { result.now ≡ reverse (skip_ows (reverse bytes.now)) }
{
    let mut end = bytes.len();
    while end > 0 && is_space_or_tab(bytes[end - 1]) {
        end -= 1;
    }
    &bytes[..end]
}

// The words are the same in any ASCII case.
fn is_same_word(a: &[u8], b: &[u8]) -> bool
    ensures { result ≡ str_eq_ignore_ascii_case a.now b.now }
{
    a.eq_ignore_ascii_case(b)
}
