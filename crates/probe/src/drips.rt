//! A link that reads a byte at a time, and counts them.
ghost use Rattle.std.specs.Prelude.{None};

use ifmap_io::{Failed, Link, MemoryLink, Sink, Source};

/// A link over another in memory. A read gives one byte at most. It tells no bytes.
#[derive(Drop)]
pub struct Drip {
    pub link: MemoryLink,
    /// How many bytes were read.
    pub taken: usize,
}

impl Source for Drip {
    ghost use Rattle.ifmap_io.specs.Links.{LinkSide};

    ghost left = { λ _. None };

    ghost faults = { λ d. d.link.read_faults };

    ghost outgoing = { λ d. record { bytes = None; faults = d.link.write_faults } };

    fn read(&mut self, room: &mut [u8]) -> Result<usize, Failed> {
        let size = room.len().min(1);
        let count = self.link.read(&mut room[..size])?;
        self.taken = self.taken.saturating_add(count);
        Ok(count)
    }
}

impl Sink for Drip {
    ghost held = { λ _. None };

    ghost faults = { λ d. d.link.write_faults };

    ghost incoming = { λ d. record { bytes = None; faults = d.link.read_faults } };

    fn write_all(&mut self, bytes: &[u8]) -> Result<(), Failed> {
        self.link.write_all(bytes)
    }

    fn flush(&mut self) -> Result<(), Failed> {
        self.link.flush()
    }
}

impl Link for Drip {
    ghost use Rattle.std.specs.Prelude.{refl};

    ghost outgoing_is = { λ link. refl };

    ghost incoming_is = { λ link. refl };
}
