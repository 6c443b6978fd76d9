//! The call that the program makes.
ghost use Rattle.std.specs.Prelude.{◌≡◌, ◌≤◌, ℕ, List, Option, length, map, string_bytes};
ghost use Rattle.ifmap_io.specs.Limits.{most_workers};
ghost use Rattle.ifmap_program.specs.Runs.{Runs, ServesAs, outside_seen};
ghost use Rattle.ifmap_server.specs.Ends.{source_and_sink};
ghost use Rattle.ifmap_serving.specs.Works.{door_seen};

use crate::usage::tell_usage;
use ifmap_command::{Form, form_of};
use ifmap_drill::{Progress, drill};
use ifmap_io::statuses::NO_MEMORY;
use ifmap_io::{Clock, Door, Sink, Source};
use ifmap_server::replay;
use ifmap_serving::{Gate, Stand, serve};
use std::alloc::Global;
use std::sync::Wait;
use std::thread::Threads;

/// What a run has beside its words, and what it reads, writes and serves.
#[derive(Drop)]
pub struct RunSetting<'a, R, C> {
    /// Threads, and waiting.
    pub rt: &'a R,
    /// Memory.
    pub alloc: Global,
    /// What the random words of a server are made of.
    pub key: [u8; 32],
    /// What tells the moments at which a server is asked.
    pub clock: &'a C,
}

/// All that the program does with its words, its own name left out. For `replay` it answers the frames
/// of the source; for `drill KEY COUNT` it makes and carries out that many events, and writes a summary;
/// for `serve ADDRESS WORKERS` it serves the doors of the stands, of which there is one for each worker.
/// For other words, and where there is another number of stands, it writes the usage line.
///
/// The status is 0 where the script was read to its end, the drill is done, or each door had no link
/// left; 2 for the usage line; 3 at the first frame that is at fault; 4 where a read failed; 5 where a
/// write failed; 6 for want of memory; and 7 where a door failed. 4, 5 and 7 come only where the object
/// counted a fault. What was done is said at `replay`, `drill` and `serve`.
pub fn run<
    R: Threads + Wait + Sync,
    S: Source,
    K: Sink,
    D: Door + Send,
    G: Gate + Send,
    C: Clock + Sync,
    P: Progress,
>(
    setting: &RunSetting<'_, R, C>,
    words: &[String],
    source: &mut S,
    sink: &mut K,
    stands: &mut [Stand<D, G>],
    progress: &mut P,
) -> u8
    ensures { Runs (C.gives setting.now.clock.now) (door_seen D.links D.faults) setting.now.key
        (map string_bytes words.now) result
        (outside_seen (source_and_sink (S.left source.old) (S.faults source.old) (K.held sink.old)
        (K.faults sink.old)) stands.old)
        (outside_seen (source_and_sink (S.left source.new) (S.faults source.new) (K.held sink.new)
        (K.faults sink.new)) stands.new) }
{
    match form_of(setting.alloc, words) {
        Form::Replay => replay(setting.alloc, source, sink),
        Form::Drill { key, count } => drill(setting.alloc, key, count, sink, progress),
        Form::Serve {
            address: _at,
            workers,
        } => serve_as(setting, workers, sink, stands),
        Form::Wrong => tell_usage(sink),
        Form::NoMemory => NO_MEMORY,
    }
}

// Serves the stands where there are that many, and else tells the usage.
fn serve_as<R: Threads + Wait + Sync, K: Sink, D: Door + Send, G: Gate + Send, C: Clock + Sync>(
    setting: &RunSetting<'_, R, C>,
    workers: u32,
    sink: &mut K,
    stands: &mut [Stand<D, G>],
) -> u8
    requires some { 1 ≤ workers }
    requires few { workers ≤ most_workers }
    ensures { (left : Option (List ℕ)) (faults : ℕ)
        → ServesAs (C.gives setting.now.clock.now) (door_seen D.links D.faults)
        setting.now.key workers result
        (outside_seen (source_and_sink left faults (K.held sink.old) (K.faults sink.old))
        stands.old)
        (outside_seen (source_and_sink left faults (K.held sink.new) (K.faults sink.new))
        stands.new) }
{
    if stands.len() != workers as usize {
        return tell_usage(sink);
    }
    serve(
        setting.rt,
        setting.alloc,
        setting.key,
        stands,
        setting.clock,
    )
}
