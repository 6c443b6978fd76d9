//! The program as a server over doors in memory.
use crate::desk::CountingGate;
use ifmap_io::{MemoryClock, MemoryDoor, MemoryLink, MemorySink, MemorySource, Moment};
use ifmap_program::{NoProgress, RunSetting, Stand, run};
use std::alloc::{AllocError as NoMemory, Global};
use std::collections::VecDeque;
use std::sync::Wait;
use std::thread::Threads;

/// A stand at a door of these links.
pub fn stand_of(
    alloc: Global,
    links: VecDeque<MemoryLink>,
) -> Result<Stand<MemoryDoor, CountingGate>, NoMemory> {
    let gate = CountingGate {
        asks: 0,
        answers: 0,
    };
    Ok(Stand::new(MemoryDoor::new(alloc, links, Vec::new(alloc))?, gate))
}

// The words that ask for a server with so many workers.
fn words_of(alloc: Global, workers: &str) -> Result<Vec<String>, NoMemory> {
    let mut words = Vec::new(alloc);
    for word in ["serve", "127.0.0.1:8080", workers] {
        words.push(String::from_str(alloc, word)?)?;
    }
    Ok(words)
}

/// Serves these stands, as the program does, with a clock that goes on by so many seconds at each pause.
/// Answers the status, and what was written.
pub fn serve<R: Threads + Wait + Sync>(
    rt: &R,
    alloc: Global,
    workers: &str,
    step: u64,
    stands: &mut [Stand<MemoryDoor, CountingGate>],
) -> Result<(u8, Vec<u8>), NoMemory> {
    let words = words_of(alloc, workers)?;
    let mut source = MemorySource::new(Vec::new(alloc), Vec::new(alloc));
    let mut sink = MemorySink::new(Vec::new(alloc), Vec::new(alloc));
    let start = Moment::new(1_000_000_000).unwrap();
    let last = Moment::new(2_000_000_000).unwrap();
    let clock = MemoryClock::new(start, step, last);
    let setting = RunSetting {
        rt,
        alloc,
        key: [7; 32],
        clock: &clock,
    };
    let status = run(
        &setting,
        words.as_slice(),
        &mut source,
        &mut sink,
        stands,
        &mut NoProgress,
    );
    Ok((status, sink.held().to_vec(alloc)?))
}
