//! Links: what is read from and written to at once, as a connection.
ghost use Rattle.std.specs.Prelude.{◌≡◌, Contains, IfOk, IsErr, OnErr, Some, length, min};
ghost use Rattle.std.specs.Io.{ReadsAtMost};
ghost use Rattle.std.specs.Io.KnownBytes.{Keeps, ReadConsumes};
ghost use Rattle.ifmap_io.specs.Causes.{HasCause, count_after_one};
ghost use Rattle.ifmap_io.specs.Memory.{FailsAsListed, faults_after};
ghost use Rattle.ifmap_io.specs.Written.{WritesAll};

use crate::ends::{Failed, Sink, Source};
use crate::memory::{begin_call, move_bytes};
use std::marker::Model;

/// A source and a sink in one object, each with its own count of faults.
pub trait Link: Source + Sink + Drop {
    /// What reads leave alone is what the link is as a sink.
    ghost outgoing_is: { (link : Self) → Self.outgoing link
        ≡ record { bytes = Self.held link; faults = Self.Sink.faults link } };

    /// What writes leave alone is what the link is as a source.
    ghost incoming_is: { (link : Self) → Self.incoming link
        ≡ record { bytes = Self.left link; faults = Self.Source.faults link } };
}

/// A link over bytes in memory. It tells what it has left and what it holds. A read gives as many
/// bytes as fit. A write fails too at want of memory, and where it fails nothing of it is written.
#[derive(Drop)]
pub struct MemoryLink {
    bytes: Vec<u8>,
    taken: usize,
    held: Vec<u8>,
    fails: Vec<u64>,
    calls: u64,
    read_faults: u64,
    write_faults: u64,
}

impl Model for MemoryLink {
    ghost use Rattle.std.specs.Prelude.{◌≤◌, drop, vec_len};
    ghost use Rattle.ifmap_io.specs.Memory.{Cable};

    ghost Value = { Cable };

    ghost view = { λ l. record {
      left = drop l.taken l.bytes.items;
      held = l.held.items;
      fails = l.fails.items;
      calls = l.calls;
      read_faults = l.read_faults;
      write_faults = l.write_faults;
    } };

    ghost invariant = { λ l. l.taken ≤ vec_len l.bytes };
}

impl MemoryLink {
    /// A link that has `left` and holds `held`. Its reads, writes and flushes, counted together from
    /// 0, fail at the numbers `fails`.
    pub fn new(left: Vec<u8>, held: Vec<u8>, fails: Vec<u64>) -> MemoryLink
        ensures { result ≡ record {
          left = left.items;
          held = held.items;
          fails = fails.items;
          calls = 0;
          read_faults = 0;
          write_faults = 0;
        } }
    {
        MemoryLink {
            bytes: left,
            taken: 0,
            held,
            fails,
            calls: 0,
            read_faults: 0,
            write_faults: 0,
        }
    }

    /// The bytes that it holds.
    pub fn held(&self) -> &[u8]
        ensures { result.now ≡ self.now.held }
    {
        self.held.as_slice()
    }
}

impl Source for MemoryLink {
    ghost left = { λ l. Some l.left };

    ghost faults = { λ l. l.read_faults };

    ghost outgoing = { λ l. record { bytes = Some l.held; faults = l.write_faults } };

    fn read(&mut self, room: &mut [u8]) -> Result<usize, Failed>
        ensures bound { ReadsAtMost result room.new }
        ensures bytes { ReadConsumes (Some self.old.left) (Some self.new.left) result room.new }
        ensures fills { IfOk result
            (λ count. count ≡ min (length self.old.left) (length room.new)) }
        ensures cause { HasCause self.old.read_faults self.new.read_faults result }
        ensures listed { FailsAsListed self.old.fails self.old.calls result }
        ensures rest { self.new ≡ record self.old {
          left = self.new.left;
          calls = count_after_one self.old.calls;
          read_faults = faults_after result self.old.read_faults;
        } }
    {
        begin_call(&self.fails, &mut self.calls, &mut self.read_faults)?;
        Ok(move_bytes(&self.bytes, &mut self.taken, room))
    }
}

impl Sink for MemoryLink {
    ghost held = { λ l. Some l.held };

    ghost faults = { λ l. l.write_faults };

    ghost incoming = { λ l. record { bytes = Some l.left; faults = l.read_faults } };

    fn write_all(&mut self, bytes: &[u8]) -> Result<(), Failed>
        ensures bytes { WritesAll (Some self.old.held) (Some self.new.held) result bytes.now }
        ensures cause { HasCause self.old.write_faults self.new.write_faults result }
        ensures listed { Contains self.old.fails self.old.calls → IsErr result }
        ensures none { OnErr result (self.new.held ≡ self.old.held) }
        ensures rest { self.new ≡ record self.old {
          held = self.new.held;
          calls = count_after_one self.old.calls;
          write_faults = faults_after result self.old.write_faults;
        } }
    {
        begin_call(&self.fails, &mut self.calls, &mut self.write_faults)?;
        if self.held.extend_from_slice(bytes).is_err() {
            self.write_faults = self.write_faults.saturating_add(1);
            return Err(Failed);
        }
        Ok(())
    }

    fn flush(&mut self) -> Result<(), Failed>
        ensures bytes { Keeps (Some self.old.held) (Some self.new.held) }
        ensures cause { HasCause self.old.write_faults self.new.write_faults result }
        ensures listed { FailsAsListed self.old.fails self.old.calls result }
        ensures rest { self.new ≡ record self.old {
          calls = count_after_one self.old.calls;
          write_faults = faults_after result self.old.write_faults;
        } }
    {
        begin_call(&self.fails, &mut self.calls, &mut self.write_faults)?;
        Ok(())
    }
}

impl Link for MemoryLink {
    ghost use Rattle.std.specs.Prelude.{refl};

    ghost outgoing_is = { λ link. refl };

    ghost incoming_is = { λ link. refl };
}
