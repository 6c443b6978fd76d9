//! The adapters over the system's readers and writers. They tell no bytes, and count each error. Each
//! call makes one call of its reader or writer, and promises what that one promises.
ghost use Rattle.std.specs.Prelude.{◌≡◌, ◌≤◌, IsErr, MatchResult, None, OnErr, OnOk};
ghost use Rattle.std.specs.Io.{ReadsAtMost};
ghost use Rattle.std.specs.Io.KnownBytes.{Appends, Keeps, ReadConsumes};
ghost use Rattle.ifmap_io.specs.Causes.{HasCause, Rose};
ghost use Rattle.ifmap_io.specs.Memory.{faults_after};

use crate::ends::{Failed, Sink, Source};
use std::io;
use std::io::{Read, Write};
use std::marker::Model;

/// A source over a reader. Contracts see it as the reader and its count of faults, which is one more
/// after each read that fails. A read that a signal interrupts fails too, and is counted: the program
/// then ends with status 4.
#[derive(Drop)]
pub struct StdSource<R> {
    reader: R,
    faults: u64,
}

impl<R> Model for StdSource<R> {
    ghost use Rattle.ifmap_io.specs.Adapters.{Adapter, adapter_code};

    ghost Value = { Adapter R };

    ghost coded = { adapter_code R.code };

    ghost view = { λ s. record { inner = s.reader; faults = s.faults } };
}

impl<R: Read> StdSource<R> {
    /// A source over that reader, with no fault yet. It takes no memory.
    pub fn new(reader: R) -> StdSource<R>
        ensures { result ≡ record { inner = reader; faults = 0 } }
    {
        StdSource { reader, faults: 0 }
    }
}

impl<R: Read> Source for StdSource<R> {
    ghost left = { λ _. None };

    ghost faults = { λ s. s.faults };

    fn read(&mut self, room: &mut [u8]) -> Result<usize, Failed>
        ensures bound { ReadsAtMost result room.new }
        ensures reader { ReadConsumes (R.remaining self.old.inner) (R.remaining self.new.inner)
            result room.new }
        ensures cause { HasCause self.old.faults self.new.faults result }
        ensures counted { self.new.faults ≡ faults_after result self.old.faults }
    {
        count_error(self.reader.read(room), &mut self.faults)
    }
}

/// A sink over a writer. Contracts see it as the writer and its count of faults, which is one more
/// after each write and each flush that fails. How much a write that fails has written is not told. A
/// write that a signal interrupts goes on.
#[derive(Drop)]
pub struct StdSink<W> {
    writer: W,
    faults: u64,
}

impl<W> Model for StdSink<W> {
    ghost use Rattle.ifmap_io.specs.Adapters.{Adapter, adapter_code};

    ghost Value = { Adapter W };

    ghost coded = { adapter_code W.code };

    ghost view = { λ s. record { inner = s.writer; faults = s.faults } };
}

impl<W: Write> StdSink<W> {
    /// A sink over that writer, with no fault yet. It takes no memory.
    pub fn new(writer: W) -> StdSink<W>
        ensures { result ≡ record { inner = writer; faults = 0 } }
    {
        StdSink { writer, faults: 0 }
    }
}

impl<W: Write> Sink for StdSink<W> {
    ghost held = { λ _. None };

    ghost faults = { λ s. s.faults };

    fn write_all(&mut self, bytes: &[u8]) -> Result<(), Failed>
        ensures writer { OnOk result (Appends (W.contents self.old.inner)
            (W.contents self.new.inner) bytes.now) }
        ensures cause { HasCause self.old.faults self.new.faults result }
        ensures counted { self.new.faults ≡ faults_after result self.old.faults }
    {
        count_error(self.writer.write_all(bytes), &mut self.faults)
    }

    fn flush(&mut self) -> Result<(), Failed>
        ensures writer { Keeps (W.contents self.old.inner) (W.contents self.new.inner) }
        ensures cause { HasCause self.old.faults self.new.faults result }
        ensures counted { self.new.faults ≡ faults_after result self.old.faults }
    {
        count_error(self.writer.flush(), &mut self.faults)
    }
}

// The system's answer, whose error is counted.
pub(crate) fn count_error<T>(answer: io::Result<T>, faults: &mut u64) -> Result<T, Failed>
    ensures same { MatchResult result (λ value. answer ≡ Ok value) (λ _. IsErr answer) }
    ensures counted { faults.new ≡ faults_after result faults.old }
    ensures later { faults.old ≤ faults.new }
    ensures rose { OnErr result (Rose faults.old faults.new) }
{
    match answer {
        Ok(value) => Ok(value),
        Err(_) => {
            *faults = faults.saturating_add(1);
            Err(Failed)
        }
    }
}
