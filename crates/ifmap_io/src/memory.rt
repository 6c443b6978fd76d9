//! A source and a sink in memory, which fail at the calls that are listed.
ghost use Rattle.std.specs.Prelude.{◌≡◌, ◌+◌, ◌-◌, ◌^◌, ◌<◌, ◌≤◌, ◌↔◌, ◌++◌, [], Contains, IfOk, IsErr, IsTrue, OnErr, Some, drop, length, min, take};
ghost use Rattle.std.specs.Io.{ReadsAtMost};
ghost use Rattle.std.specs.Io.KnownBytes.{Keeps, ReadConsumes};
ghost use Rattle.ifmap_io.specs.Causes.{HasCause, Rose, count_after_one};
ghost use Rattle.ifmap_io.specs.Memory.{FailsAsListed, faults_after};
ghost use Rattle.ifmap_io.specs.Written.{WritesAll};

use crate::ends::{Failed, Sink, Source};
use std::marker::Model;

/// A source over bytes in memory. It tells what it has left. A read gives as many bytes as fit.
#[derive(Drop)]
pub struct MemorySource {
    bytes: Vec<u8>,
    taken: usize,
    fails: Vec<u64>,
    reads: u64,
    faults: u64,
}

impl Model for MemorySource {
    ghost use Rattle.std.specs.Prelude.{◌≤◌, drop, vec_len};
    ghost use Rattle.ifmap_io.specs.Memory.{Feed};

    ghost Value = { Feed };

    ghost view = { λ s. record {
      left = drop s.taken s.bytes.items;
      fails = s.fails.items;
      calls = s.reads;
      faults = s.faults;
    } };

    ghost invariant = { λ s. s.taken ≤ vec_len s.bytes };
}

impl MemorySource {
    /// A source that has `left`, and whose reads fail at the numbers `fails`, counted from 0.
    pub fn new(left: Vec<u8>, fails: Vec<u64>) -> MemorySource
        ensures { result ≡ record {
          left = left.items;
          fails = fails.items;
          calls = 0;
          faults = 0;
        } }
    {
        MemorySource {
            bytes: left,
            taken: 0,
            fails,
            reads: 0,
            faults: 0,
        }
    }
}

impl Source for MemorySource {
    ghost left = { λ s. Some s.left };

    ghost faults = { λ s. s.faults };

    fn read(&mut self, room: &mut [u8]) -> Result<usize, Failed>
        ensures bound { ReadsAtMost result room.new }
        ensures bytes { ReadConsumes (Some self.old.left) (Some self.new.left) result room.new }
        ensures fills { IfOk result
            (λ count. count ≡ min (length self.old.left) (length room.new)) }
        ensures cause { HasCause self.old.faults self.new.faults result }
        ensures listed { FailsAsListed self.old.fails self.old.calls result }
        ensures rest { self.new ≡ record self.old {
          left = self.new.left;
          calls = count_after_one self.old.calls;
          faults = faults_after result self.old.faults;
        } }
    {
        begin_call(&self.fails, &mut self.reads, &mut self.faults)?;
        Ok(move_bytes(&self.bytes, &mut self.taken, room))
    }
}

/// A sink over a vector. It tells what it holds. A write fails too at want of memory, and where it
/// fails nothing of it is written.
#[derive(Drop)]
pub struct MemorySink {
    held: Vec<u8>,
    fails: Vec<u64>,
    calls: u64,
    faults: u64,
}

impl Model for MemorySink {
    ghost use Rattle.ifmap_io.specs.Memory.{Store};

    ghost Value = { Store };

    ghost view = { λ s. record {
      held = s.held.items;
      fails = s.fails.items;
      calls = s.calls;
      faults = s.faults;
    } };
}

impl MemorySink {
    /// A sink that holds `held`, and whose writes and flushes, counted together from 0, fail at the
    /// numbers `fails`.
    pub fn new(held: Vec<u8>, fails: Vec<u64>) -> MemorySink
        ensures { result ≡ record {
          held = held.items;
          fails = fails.items;
          calls = 0;
          faults = 0;
        } }
    {
        MemorySink {
            held,
            fails,
            calls: 0,
            faults: 0,
        }
    }

    /// The bytes that it holds.
    pub fn held(&self) -> &[u8]
        ensures { result.now ≡ self.now.held }
    {
        self.held.as_slice()
    }
}

impl Sink for MemorySink {
    ghost held = { λ s. Some s.held };

    ghost faults = { λ s. s.faults };

    fn write_all(&mut self, bytes: &[u8]) -> Result<(), Failed>
        ensures bytes { WritesAll (Some self.old.held) (Some self.new.held) result bytes.now }
        ensures cause { HasCause self.old.faults self.new.faults result }
        ensures listed { Contains self.old.fails self.old.calls → IsErr result }
        ensures none { OnErr result (self.new.held ≡ self.old.held) }
        ensures rest { self.new ≡ record self.old {
          held = self.new.held;
          calls = count_after_one self.old.calls;
          faults = faults_after result self.old.faults;
        } }
    {
        begin_call(&self.fails, &mut self.calls, &mut self.faults)?;
        if self.held.extend_from_slice(bytes).is_err() {
            self.faults = self.faults.saturating_add(1);
            return Err(Failed);
        }
        Ok(())
    }

    fn flush(&mut self) -> Result<(), Failed>
        ensures bytes { Keeps (Some self.old.held) (Some self.new.held) }
        ensures cause { HasCause self.old.faults self.new.faults result }
        ensures listed { FailsAsListed self.old.fails self.old.calls result }
        ensures rest { self.new ≡ record self.old {
          calls = count_after_one self.old.calls;
          faults = faults_after result self.old.faults;
        } }
    {
        begin_call(&self.fails, &mut self.calls, &mut self.faults)?;
        Ok(())
    }
}

// Counts this call, which fails where its number is listed, and then the fault.
pub(crate) fn begin_call(fails: &[u64], calls: &mut u64, faults: &mut u64) -> Result<(), Failed>
    ensures listed { FailsAsListed fails.now calls.old result }
    ensures counted { calls.new ≡ count_after_one calls.old }
    ensures faults { faults.new ≡ faults_after result faults.old }
    ensures later { faults.old ≤ faults.new }
    ensures rose { OnErr result (Rose faults.old faults.new) }
{
    let is_listed = fails.contains(calls);
    *calls = calls.saturating_add(1);
    if is_listed {
        *faults = faults.saturating_add(1);
        return Err(Failed);
    }
    Ok(())
}

// Moves what fits from the bytes past `taken` to the start of `room`, and answers how many.
pub(crate) fn move_bytes(bytes: &[u8], taken: &mut usize, room: &mut [u8]) -> usize
    requires { taken.old ≤ length bytes.now }
    ensures within { taken.new ≤ length bytes.now }
    ensures bound { result ≤ length room.new }
    ensures fills { result ≡ min (length bytes.now - taken.old) (length room.new) }
    ensures moved { drop taken.old bytes.now ≡ take result room.new ++ drop taken.new bytes.now }
    ensures end { result ≡ 0 → 0 < length room.new → drop taken.new bytes.now ≡ [] }
{
    let count = copy_bytes(&bytes[*taken..], room);
    *taken += count;
    count
}

// Copies what fits.
fn copy_bytes(rest: &[u8], room: &mut [u8]) -> usize
    ensures count { result ≡ min (length rest.now) (length room.old) }
    ensures bytes { take result room.new ≡ take result rest.now }
{
    let count = rest.len().min(room.len());
    room[..count].copy_from_slice(&rest[..count]);
    count
}
