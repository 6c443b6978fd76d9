//! A link over which one post comes again and again.
ghost use Rattle.std.specs.Prelude.{None};

use ifmap_io::{Failed, Link, Sink, Source};

/// A link that has so many copies of a post left, of which a read gives no more than one. It tells no
/// bytes. It counts the messages that are written: those that are due, until the one at the end, that
/// one, and all others.
#[derive(Drop)]
pub struct RepeatingLink {
    post: Vec<u8>,
    at: usize,
    left: u64,
    due: Vec<u8>,
    end: Vec<u8>,
    dues: u64,
    ends: u64,
    others: u64,
}

impl RepeatingLink {
    /// A link with so many copies of that post. The message `due` is due to each, and `end` at the end.
    pub fn new(post: Vec<u8>, left: u64, due: Vec<u8>, end: Vec<u8>) -> RepeatingLink {
        RepeatingLink {
            post,
            at: 0,
            left,
            due,
            end,
            dues: 0,
            ends: 0,
            others: 0,
        }
    }

    /// So many whole copies are left, and nothing was taken of the first of them.
    pub fn has_left(&self, copies: u64) -> bool {
        self.left == copies && self.at == 0
    }

    /// So many messages that are due were written, then the one at the end, and nothing else.
    pub fn has_ended_after(&self, dues: u64) -> bool {
        self.dues == dues && self.ends == 1 && self.others == 0
    }
}

impl Source for RepeatingLink {
    ghost use Rattle.ifmap_io.specs.Links.{LinkSide};

    ghost left = { λ _. None };

    ghost faults = { λ _. 0 };

    ghost outgoing = { λ _. record { bytes = None; faults = 0 } };

    fn read(&mut self, room: &mut [u8]) -> Result<usize, Failed> {
        if self.left == 0 {
            return Ok(0);
        }
        let rest = self.post.get(self.at..).unwrap_or(&[]);
        let size = rest.len().min(room.len());
        room[..size].copy_from_slice(&rest[..size]);
        self.at = self.at.saturating_add(size);
        if self.at >= self.post.len() {
            self.at = 0;
            self.left -= 1;
        }
        Ok(size)
    }
}

impl Sink for RepeatingLink {
    ghost held = { λ _. None };

    ghost faults = { λ _. 0 };

    ghost incoming = { λ _. record { bytes = None; faults = 0 } };

    fn write_all(&mut self, bytes: &[u8]) -> Result<(), Failed> {
        if self.ends == 0 && self.due.as_slice() == bytes {
            self.dues = self.dues.saturating_add(1);
        } else if self.end.as_slice() == bytes {
            self.ends = self.ends.saturating_add(1);
        } else {
            self.others = self.others.saturating_add(1);
        }
        Ok(())
    }

    fn flush(&mut self) -> Result<(), Failed> {
        Ok(())
    }
}

impl Link for RepeatingLink {
    ghost use Rattle.std.specs.Prelude.{refl};

    ghost outgoing_is = { λ link. refl };

    ghost incoming_is = { λ link. refl };
}
