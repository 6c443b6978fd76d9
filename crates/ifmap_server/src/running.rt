//! A replay, with its status.
ghost use Rattle.std.specs.Prelude.{◌≡◌, ◌<◌};
ghost use Rattle.ifmap_server.specs.Replayed.{Replays};
ghost use Rattle.ifmap_server.specs.Ends.{source_and_sink};

use crate::errors::status_of;
use crate::laws::scripts_agree;
use crate::replaying::Replay;
use ifmap_io::{Sink, Source};
use ifmap_steps::Steps;
use std::alloc::Global;
use std::marker::Brand;
use std::sync::ledger::{Blank, Ledger};

/// Answers the frames of the source in the sink, each before the next is read, by a machine that
/// begins with no session.
///
/// The status is 0 where the script was read to its end, 3 at the first frame that is at fault, whose
/// offset in bytes is then written, 4 where a read failed, 5 where a write failed, and 6 for want of
/// memory. A frame is at fault where it is not of the form, its body is longer than 10,000,000 bytes,
/// the source ends within it, or it would end past 2^32 bytes. At 4 all whole frames that were taken
/// are answered, and no frame whose header's line was taken is at fault; at 5 and 6 a prefix of the
/// output was written. 4 and 5 come only where the object counted a fault.
pub fn replay<S: Source, K: Sink>(alloc: Global, source: &mut S, sink: &mut K) -> u8
    ensures { Replays result
        (source_and_sink (S.left source.old) (S.faults source.old) (K.held sink.old)
        (K.faults sink.old))
        (source_and_sink (S.left source.new) (S.faults source.new) (K.held sink.new)
        (K.faults sink.new)) }
{
    replay_from::<S, K, Brand>(alloc, source, sink, Blank::new(1))
}

fn replay_from<S: Source, K: Sink, L: Ledger>(
    alloc: Global,
    source: &mut S,
    sink: &mut K,
    blank: Blank,
) -> u8
    requires name { blank.name ≡ L.name }
    requires parts { blank.parts ≡ L.parts }
    requires some { 0 < blank.parts }
    ensures { Replays result
        (source_and_sink (S.left source.old) (S.faults source.old) (K.held sink.old)
        (K.faults sink.old))
        (source_and_sink (S.left source.new) (S.faults source.new) (K.held sink.new)
        (K.faults sink.new)) }
{
    scripts_agree();
    let mut steps: Steps<L> = Steps::from_blank(blank);
    let mut replay = Replay::new(alloc);
    status_of(replay.run(alloc, source, sink, &mut steps))
}
