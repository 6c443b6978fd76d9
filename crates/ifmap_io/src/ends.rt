//! What is read from and written to.
ghost use Rattle.std.specs.Prelude.{◌≡◌, ℕ, List, Option, is_some};
ghost use Rattle.std.specs.Io.{ReadsAtMost};
ghost use Rattle.std.specs.Io.KnownBytes.{Keeps, ReadConsumes};
ghost use Rattle.ifmap_io.specs.Causes.{HasCause};
ghost use Rattle.ifmap_io.specs.Links.{LinkSide, no_side};
ghost use Rattle.ifmap_io.specs.Written.{WritesAll};

/// The outside failed. The object's count of faults has risen.
#[derive(Clone, Copy, Debug, PartialEq, Eq)]
pub struct Failed;

/// What bytes are read from.
pub trait Source {
    /// The bytes that it has left, where they are told.
    ghost left: { Self → Option (List ℕ) };

    /// How often a read has failed.
    ghost faults: { Self → ℕ };

    /// What the object is as a sink too, where it is a link.
    ghost outgoing: { Self → LinkSide } = { λ _. no_side };

    /// Puts the next bytes at the start of `room`, and answers how many. With room, 0 is the end of
    /// input. A read that fails takes nothing, and no read changes what was written. It is not made
    /// again: one that a signal interrupts may fail as any other, and ends a run with status 4.
    fn read(&mut self, room: &mut [u8]) -> Result<usize, Failed>
        ensures bound { ReadsAtMost result room.new }
        ensures bytes { ReadConsumes (left self.old) (left self.new) result room.new }
        ensures told { is_some (left self.new) ≡ is_some (left self.old) }
        ensures apart { outgoing self.new ≡ outgoing self.old }
        ensures cause { HasCause (faults self.old) (faults self.new) result };
}

/// What bytes are written to.
pub trait Sink {
    /// The bytes that it holds, where they are told.
    ghost held: { Self → Option (List ℕ) };

    /// How often a write or a flush has failed.
    ghost faults: { Self → ℕ };

    /// What the object is as a source too, where it is a link.
    ghost incoming: { Self → LinkSide } = { λ _. no_side };

    /// Writes all of `bytes`. A write that fails has written a prefix of them, and no write takes
    /// from what is left to read.
    fn write_all(&mut self, bytes: &[u8]) -> Result<(), Failed>
        ensures bytes { WritesAll (held self.old) (held self.new) result bytes.now }
        ensures told { is_some (held self.new) ≡ is_some (held self.old) }
        ensures apart { incoming self.new ≡ incoming self.old }
        ensures cause { HasCause (faults self.old) (faults self.new) result };

    /// Hands on what was written.
    fn flush(&mut self) -> Result<(), Failed>
        ensures bytes { Keeps (held self.old) (held self.new) }
        ensures told { is_some (held self.new) ≡ is_some (held self.old) }
        ensures apart { incoming self.new ≡ incoming self.old }
        ensures cause { HasCause (faults self.old) (faults self.new) result };
}

/// Writes all of `bytes`, and hands them on. Where that fails, a prefix of them was written.
#[tactic(auto, using(crate::specs::Rises::appends_kept, crate::specs::Rises::appends_whole, crate::specs::Rises::rose_since))]
pub fn send_bytes<K: Sink>(sink: &mut K, bytes: &[u8]) -> Result<(), Failed>
    ensures bytes { WritesAll (K.held sink.old) (K.held sink.new) result bytes.now }
    ensures told { is_some (K.held sink.new) ≡ is_some (K.held sink.old) }
    ensures apart { K.incoming sink.new ≡ K.incoming sink.old }
    ensures cause { HasCause (K.faults sink.old) (K.faults sink.new) result }
{
    sink.write_all(bytes)?;
    sink.flush()
}
