//! Writing to a sink.
ghost use Rattle.std.specs.Prelude.{◌≤◌, ◌++◌};
ghost use Rattle.ifmap_client_script.specs.ScriptFailures.{SendsText, WritesText};
ghost use Rattle.ifmap_client_script.specs.Printing.{body_text};

use crate::outcomes::ScriptFailure;
use ifmap_elem::Many;
use ifmap_io::{Sink, send_bytes};
use std::alloc::Global;

/// Writes bytes, and hands them on.
pub fn send<K: Sink>(sink: &mut K, bytes: &[u8]) -> Result<(), ScriptFailure>
    ensures bytes { WritesText (K.held sink.old) (K.held sink.new) (K.faults sink.old)
        (K.faults sink.new) bytes.now result }
    ensures later { K.faults sink.old ≤ K.faults sink.new }
{
    if send_bytes(sink, bytes).is_err() {
        return Err(ScriptFailure::WriteFault);
    }
    Ok(())
}

/// Writes `=`, the length of a body, a newline and the body, and hands them on.
pub fn send_body<K: Sink>(alloc: Global, sink: &mut K, body: &Many<u8>) -> Result<(), ScriptFailure>
    ensures bytes { SendsText (K.held sink.old) (K.held sink.new) (K.faults sink.old)
        (K.faults sink.new) (body_text body.now) result }
    ensures later { K.faults sink.old ≤ K.faults sink.new }
{
    let length = body.len();
    let Ok(line) = format!(in alloc; "={length}\n") else {
        return Err(ScriptFailure::NoMemory);
    };
    send_both(sink, line.as_bytes(), body.as_slice())
}

// Writes two texts one after the other, and hands them on.
fn send_both<K: Sink>(sink: &mut K, line: &[u8], body: &[u8]) -> Result<(), ScriptFailure>
    ensures bytes { WritesText (K.held sink.old) (K.held sink.new) (K.faults sink.old)
        (K.faults sink.new) (line.now ++ body.now) result }
    ensures later { K.faults sink.old ≤ K.faults sink.new }
{
    match write(sink, line) {
        Ok(()) => send(sink, body),
        Err(failure) => Err(failure),
    }
}

fn write<K: Sink>(sink: &mut K, bytes: &[u8]) -> Result<(), ScriptFailure>
    ensures bytes { WritesText (K.held sink.old) (K.held sink.new) (K.faults sink.old)
        (K.faults sink.new) bytes.now result }
    ensures later { K.faults sink.old ≤ K.faults sink.new }
{
    if sink.write_all(bytes).is_err() {
        return Err(ScriptFailure::WriteFault);
    }
    Ok(())
}
