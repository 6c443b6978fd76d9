//! When bytes that were taken are worth being parsed.
ghost use Rattle.std.specs.Prelude.{◌≡◌, ◌≤◌, [], length};
ghost use Rattle.std.specs.Bool.{OnFalse};
ghost use Rattle.ifmap_heads.specs.Limits.{longest_head};

use ifmap_heads::LONGEST_HEAD;

// How far the bytes of a head were looked at. A head is parsed where a line of it has ended, where it
// has grown to twice what was parsed, and past its limit. It has at most 66 lines, so a client that
// sends a byte at a time costs a time that is linear in the head.
#[derive(Clone, Copy)]
pub(crate) struct HeadProgress {
    // The line ends in front, as far as they were seen.
    blank: usize,
    // How many bytes were looked at.
    seen: usize,
    // How many bytes were parsed.
    parsed: usize,
}

impl HeadProgress {
    pub(crate) fn new() -> HeadProgress
        ensures { result.parsed ≡ 0 }
    {
        HeadProgress {
            blank: 0,
            seen: 0,
            parsed: 0,
        }
    }

    // The bytes are worth being parsed. The first bytes are, and bytes past the limit always are.
    pub(crate) fn is_worth_parsing(&mut self, bytes: &[u8]) -> bool
        ensures within { OnFalse result (length bytes.now ≤ longest_head) }
        ensures first { OnFalse result (self.old.parsed ≡ 0 → bytes.now ≡ []) }
    {
        let from = self.seen.min(bytes.len());
        self.seen = bytes.len();
        self.blank = blank_end(bytes, self.blank);
        let has_grown = !bytes.is_empty() && bytes.len() / 2 >= self.parsed;
        if has_grown || bytes.len() > LONGEST_HEAD || has_line_end(bytes, from.max(self.blank)) {
            self.parsed = bytes.len();
            return true;
        }
        false
    }
}

// Where the line ends in front end, of which some were seen.
fn blank_end(bytes: &[u8], seen: usize) -> usize {
    let rest = bytes.get(seen..).unwrap_or(b"");
    let more = rest.iter().take_while(|b| is_line_end(**b)).count();
    seen.saturating_add(more)
}

fn is_line_end(byte: u8) -> bool {
    byte == b'\r' || byte == b'\n'
}

// A line ends at one of the bytes from that place on.
fn has_line_end(bytes: &[u8], from: usize) -> bool {
    bytes.get(from..).unwrap_or(b"").contains(&b'\n')
}
