//! What bytes that are no whole head yet have begun.
ghost use Rattle.std.specs.Prelude.{◌≡◌, false, ◌≤◌, ◌↔◌, ◌++◌, List, IsTrue, length};
ghost use Rattle.std.specs.List.{count_by, list_all};
ghost use Rattle.std.specs.Option.{MatchOption};
ghost use Rattle.httparse.specs.Grammar.{EndsInTarget, LineEnd, is_uri_byte, print_blank, print_end};
ghost use Rattle.ifmap_heads.specs.Heads.{after_line_ends, line_count};
ghost use Rattle.ifmap_heads.specs.Limits.{most_lines};
ghost use Rattle.ifmap_heads.specs.Empty.{BeginsNoLineEnd, is_cut_target};

use httparse::{is_method_token, is_uri_token};

// The most lines of a head: the start line, the fields, and the empty line.
const MOST_LINES: usize = 66;

/// As many lines are whole as a head has at most, without the line ends in front.
pub fn passes_lines(bytes: &[u8]) -> bool
    ensures { IsTrue result ↔ (most_lines ≤ line_count bytes.now) }
{
    line_count(bytes) >= MOST_LINES
}

// How many lines are whole.
fn line_count(bytes: &[u8]) -> usize
    ensures { result ≡ line_count bytes.now }
{
    after_line_ends(bytes)
        .iter()
        .filter(|b| **b == b'\n')
        .count()
}

// The bytes after the line ends in front.
fn after_line_ends(bytes: &[u8]) -> &[u8]
    ensures { result.now ≡ after_line_ends bytes.now }
{
    for (i, byte) in bytes.iter().enumerate() {
        if *byte != b'\r' && *byte != b'\n' {
            return &bytes[i..];
        }
    }
    &bytes[bytes.len()..]
}

// The bytes end inside a request's target.
pub(crate) fn ends_in_target(bytes: &[u8]) -> bool
    ensures { IsTrue result ↔ EndsInTarget bytes.now }
{
    is_cut_target(after_empty_lines(bytes))
}

// A method, a space and bytes of a target.
fn is_cut_target(line: &[u8]) -> bool
    ensures { result ≡ is_cut_target false line.now }
{
    for (i, byte) in line.iter().enumerate() {
        if !is_method_token(*byte) {
            return i > 0 && *byte == b' ' && are_target_bytes(&line[i + 1..]);
        }
    }
    false
}

fn are_target_bytes(bytes: &[u8]) -> bool
    ensures { result ≡ list_all is_uri_byte bytes.now }
{
    bytes.iter().all(|b| is_uri_token(*b))
}

// The bytes after the empty lines in front.
fn after_empty_lines(bytes: &[u8]) -> &[u8]
    ensures cut { (blank : List LineEnd) × (bytes.now ≡ print_blank blank ++ result.now) }
    ensures none { BeginsNoLineEnd result.now }
{
    let mut rest = bytes;
    'lines: while let Some(after) = after_line_end(rest) {
        rest = after;
    }
    rest
}

// The bytes after the line end in front, where there is one.
fn after_line_end(bytes: &[u8]) -> Option<&[u8]>
    ensures { MatchOption result (BeginsNoLineEnd bytes.now)
        (λ rest. (end : LineEnd) × (bytes.now ≡ print_end end ++ rest.now)) }
{
    match bytes.strip_prefix(b"\n".as_slice()) {
        Some(rest) => Some(rest),
        None => bytes.strip_prefix(b"\r\n".as_slice()),
    }
}
