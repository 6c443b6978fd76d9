//! The bytes that were taken from a source and are not used yet.
ghost use Rattle.std.specs.Prelude.{◌≡◌, ◌<◌, ◌≤◌, ℕ, List, [], ◌∷◌, ◌++◌, IfOk, OnErr, OnOk, Err, drop, length, vec_len};
ghost use Rattle.std.specs.Bool.{OnFalse, OnTrue};
ghost use Rattle.std.specs.Io.KnownBytes.{Consumes, IsAtEnd};
ghost use Rattle.ifmap_io.specs.Causes.{Rose};
ghost use Rattle.ifmap_input.specs.Inputs.{TakesFromSource, UsesOneSide};

use ifmap_io::Source;
use std::alloc::{AllocError as NoMemory, Global};
use std::marker::Model;

/// How many bytes one read takes at most.
pub const CHUNK: usize = 65_536;

/// Why no more was taken.
#[derive(Clone, Copy, Debug, PartialEq, Eq)]
pub enum InputError {
    /// The read failed, and took nothing.
    ReadFault,
    /// Want of memory. What the read took is lost.
    NoMemory,
}

/// What was taken from a source and is not used yet: contracts see these bytes.
#[derive(Drop)]
pub struct Input {
    taken: Vec<u8>,
    used: usize,
    chunk: Vec<u8>,
}

impl Model for Input {
    ghost use Rattle.std.specs.Prelude.{◌≤◌, List, ℕ, drop, vec_len};

    ghost Value = { List ℕ };

    ghost view = { λ input. drop input.used input.taken.items };

    ghost invariant = { λ input. input.used ≤ vec_len input.taken };
}

impl Input {
    /// Nothing taken yet. It takes no memory: the room for a read is made by the first `fill`.
    pub fn new(alloc: Global) -> Input
        ensures { result ≡ [] }
    {
        Input {
            taken: Vec::new(alloc),
            used: 0,
            chunk: Vec::new(alloc),
        }
    }

    /// What was taken and is not used yet.
    pub fn pending_bytes(&self) -> &[u8]
        ensures { result.now ≡ self.now }
    {
        &self.taken[self.used..]
    }

    /// Uses the first bytes up.
    pub fn advance(&mut self, count: usize)
        requires { count ≤ length self.old }
        ensures { self.new ≡ drop count self.old }
    {
        self.used += count;
    }

    /// Adds a byte that no source gave, as the newline that a last line lacks. After an `Err` what is
    /// pending is as it was.
    pub fn push(&mut self, byte: u8) -> Result<(), NoMemory>
        ensures added { OnOk result (self.new ≡ self.old ++ byte ∷ []) }
        ensures unchanged { OnErr result (self.new ≡ self.old) }
    {
        self.taken.push(byte)?;
        Ok(())
    }

    /// Takes more from the source by one read; false at its end. After an `Err` what is pending is
    /// as it was.
    pub fn fill<S: Source>(&mut self, source: &mut S) -> Result<bool, InputError>
        ensures taken { OnOk result
            (TakesFromSource (S.left source.old) (S.left source.new) self.old self.new) }
        ensures more { IfOk result (λ more. OnTrue more (length self.old < length self.new)) }
        ensures end { IfOk result (λ more. OnFalse more
            (IsAtEnd (S.left source.new) × (self.new ≡ self.old))) }
        ensures unchanged { OnErr result (self.new ≡ self.old) }
        ensures kept { result ≡ Err InputError.ReadFault
            → TakesFromSource (S.left source.old) (S.left source.new) self.old self.new }
        ensures lost { result ≡ Err InputError.NoMemory
            → (got : List ℕ) × Consumes (S.left source.old) (S.left source.new) got }
        ensures fault { result ≡ Err InputError.ReadFault
            → Rose (S.faults source.old) (S.faults source.new) }
        ensures side { UsesOneSide S.left S.faults S.outgoing source.old source.new }
    {
        self.compact();
        if clear_chunk(&mut self.chunk).is_err() {
            return Err(InputError::NoMemory);
        }
        let Ok(count) = source.read(&mut self.chunk) else {
            return Err(InputError::ReadFault);
        };
        if self.taken.extend_from_slice(&self.chunk[..count]).is_err() {
            return Err(InputError::NoMemory);
        }
        Ok(count > 0)
    }

    // Makes the bytes that were used up room again.
    fn compact(&mut self)
        ensures { self.new ≡ self.old }
    {
        if self.used > 0 {
            let _front = self.taken.drain(..self.used);
            self.used = 0;
        }
    }
}

// Makes room for a read, where there is none yet.
fn clear_chunk(chunk: &mut Vec<u8>) -> Result<(), NoMemory>
    ensures { OnOk result (0 < vec_len chunk.new) }
{
    if !chunk.is_empty() {
        return Ok(());
    }
    chunk.resize(CHUNK, 0)
}
