//! The usage line.
ghost use Rattle.ifmap_program.specs.Usage.{TellsUsage};

use ifmap_io::statuses::{USAGE, WRITE_FAULT};
use ifmap_io::{Sink, send_bytes};

const USAGE_LINE: &str = "usage: mapd replay | drill KEY COUNT | serve ADDRESS WORKERS\n";

/// Tells the usage, and answers the status for that.
pub fn tell_usage<K: Sink>(sink: &mut K) -> u8
    ensures { TellsUsage result (K.held sink.old) (K.held sink.new) (K.faults sink.old)
        (K.faults sink.new) }
{
    match send_bytes(sink, USAGE_LINE.as_bytes()) {
        Ok(()) => USAGE,
        Err(_) => WRITE_FAULT,
    }
}
