//! Writing to a sink.
ghost use Rattle.std.specs.Prelude.{◌≡◌, IfErr};
ghost use Rattle.ifmap_io.specs.Causes.{HasCause};
ghost use Rattle.ifmap_io.specs.Written.{WritesAll};

use crate::errors::ReplayError;
use ifmap_io::{Sink, send_bytes};

/// Writes bytes, and hands them on.
pub fn send<K: Sink>(sink: &mut K, bytes: &[u8]) -> Result<(), ReplayError>
    ensures bytes { WritesAll (K.held sink.old) (K.held sink.new) result bytes.now }
    ensures cause { IfErr result (λ e. e ≡ ReplayError.WriteFault) }
    ensures fault { HasCause (K.faults sink.old) (K.faults sink.new) result }
{
    match send_bytes(sink, bytes) {
        Ok(()) => Ok(()),
        Err(_) => Err(ReplayError::WriteFault),
    }
}

/// Writes bytes.
pub fn write<K: Sink>(sink: &mut K, bytes: &[u8]) -> Result<(), ReplayError>
    ensures bytes { WritesAll (K.held sink.old) (K.held sink.new) result bytes.now }
    ensures cause { IfErr result (λ e. e ≡ ReplayError.WriteFault) }
    ensures fault { HasCause (K.faults sink.old) (K.faults sink.new) result }
{
    match sink.write_all(bytes) {
        Ok(()) => Ok(()),
        Err(_) => Err(ReplayError::WriteFault),
    }
}
