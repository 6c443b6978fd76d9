//! The drill, whole.
ghost use Rattle.std.specs.Prelude.{◌≡◌, ◌<◌, ◌≤◌, IfOk};
ghost use Rattle.ifmap_drill.specs.Drilled.{Drills, IsEnded, side};
ghost use Rattle.ifmap_drill.specs.Drills.{drilling_after};
ghost use Rattle.ifmap_io.specs.Limits.{most_events};
ghost use Rattle.ifmap_drill.specs.Summaries.{summary_of};

use crate::drill_counts::DrillCounts;
use crate::drills::Drill;
use crate::laws::{drills_agree, ids_are_characters};
use crate::progress::Progress;
use crate::summaries::summary_text;
use ifmap_io::statuses::{DONE, NO_MEMORY, WRITE_FAULT};
use ifmap_io::{Sink, send_bytes};
use ifmap_steps::Steps;
use std::alloc::{AllocError as NoMemory, Global};
use std::marker::Brand;
use std::sync::ledger::{Blank, Ledger};

const SHOWN_EACH: u32 = 1_000;

/// Makes the events of the drill of a key, from 1 to 100,000 of them, has a machine that begins with
/// no session answer them one after another, each request through the bytes of its body, and writes
/// the summary. It shows how far it has come each 1,000 events.
///
/// The status is 0 where the summary was written, 5 where a write failed, which has written a prefix
/// of it, and 6 for want of memory, with nothing written.
pub fn drill<K: Sink, P: Progress>(
    alloc: Global,
    key: u64,
    count: u32,
    sink: &mut K,
    progress: &mut P,
) -> u8
    requires some { 1 ≤ count }
    requires few { count ≤ most_events }
    ensures { Drills key count result
        (side (K.held sink.old) (K.faults sink.old)) (side (K.held sink.new) (K.faults sink.new)) }
{
    drills_agree();
    let Ok(counts) = count_from::<P, Brand>(alloc, key, count, progress, Blank::new(1)) else {
        return NO_MEMORY;
    };
    let Ok(text) = summary_text(alloc, &counts) else {
        return NO_MEMORY;
    };
    write_summary(text.as_bytes(), sink)
}

// Writes the summary, and hands it on.
fn write_summary<K: Sink>(text: &[u8], sink: &mut K) -> u8
    ensures { IsEnded text.now
        (side (K.held sink.old) (K.faults sink.old)) (side (K.held sink.new) (K.faults sink.new))
        result }
{
    match send_bytes(sink, text) {
        Ok(()) => DONE,
        Err(_) => WRITE_FAULT,
    }
}

// What a drill counts, with a counter of steps that begins here.
fn count_from<P: Progress, L: Ledger>(
    alloc: Global,
    key: u64,
    count: u32,
    progress: &mut P,
    blank: Blank,
) -> Result<DrillCounts, NoMemory>
    requires name { blank.name ≡ L.name }
    requires parts { blank.parts ≡ L.parts }
    requires some { 0 < blank.parts }
    requires few { count ≤ most_events }
    ensures { IfOk result (λ counts. counts ≡ summary_of (drilling_after key count)) }
{
    ids_are_characters();
    let mut steps: Steps<L> = Steps::from_blank(blank);
    let mut drill = Drill::new(alloc, key);
    'events: for i in 0..count {
        drill.take_event(alloc, i, &mut steps)?;
        show_done(progress, i + 1, count);
    }
    Ok(drill.summary())
}

// Shows each 1,000 events.
fn show_done<P: Progress>(progress: &mut P, done: u32, of: u32) {
    if done % SHOWN_EACH == 0 {
        progress.show(done, of);
    }
}
