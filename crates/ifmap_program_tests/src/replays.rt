//! Replays of scripts over memory, where reads and writes fail.
use crate::scripts::{THREE_ANSWERS, THREE_FRAMES};
use ifmap_io::{MemorySink, MemorySource};
use ifmap_server::replay;
use std::alloc::Global;
use std::test::Fail;

// A replay over memory, with the reads and the writes that are to fail: its status, and what is held.
fn replay_of(
    alloc: Global,
    script: &str,
    failing_reads: &[u64],
    failing_writes: &[u64],
) -> Result<(u8, Vec<u8>), Fail> {
    let mut source = MemorySource::new(
        script.as_bytes().to_vec(alloc)?,
        failing_reads.to_vec(alloc)?,
    );
    let mut sink = MemorySink::new(Vec::new(alloc), failing_writes.to_vec(alloc)?);
    let status = replay(alloc, &mut source, &mut sink);
    Ok((status, sink.held().to_vec(alloc)?))
}

// The status of a replay of three frames where a read or a write fails, and whether a beginning of
// their answers is written.
fn cut_replay(alloc: Global, reads: &[u64], writes: &[u64]) -> Result<(u8, bool), Fail> {
    let (status, held) = replay_of(alloc, THREE_FRAMES, reads, writes)?;
    Ok((
        status,
        THREE_ANSWERS.as_bytes().starts_with(held.as_slice()),
    ))
}

// The status of a replay where a read and a write would fail, and whether just this is written.
fn whole_replay(
    alloc: Global,
    script: &str,
    reads: &[u64],
    writes: &[u64],
    written: &str,
) -> Result<(u8, bool), Fail> {
    let (status, held) = replay_of(alloc, script, reads, writes)?;
    Ok((status, held.as_slice() == written.as_bytes()))
}

#[test]
fn a_failing_read_or_write_ends_the_replay(rt: HostRuntime) -> Result<(), Fail> {
    for read in 0..2 {
        assert_eq!(rt; cut_replay(rt.alloc(), &[read], &[])?, (4, true));
    }
    for write in 0..9 {
        assert_eq!(rt; cut_replay(rt.alloc(), &[], &[write])?, (5, true));
    }
    let whole = whole_replay(rt.alloc(), THREE_FRAMES, &[2], &[9], THREE_ANSWERS)?;
    assert_eq!(rt; whole, (0, true));
    Ok(())
}

#[test]
fn a_faulty_header_is_told_though_the_next_read_fails(rt: HostRuntime) -> Result<(), Fail> {
    let alloc = rt.alloc();
    let faulty = [
        "@1 c 0000000000000000000000000000000G 9\nabc",
        "@1 c 00000000000000000000000000000000 10000001\nabc",
    ];
    for script in faulty {
        let told = whole_replay(alloc, script, &[1], &[], "!0\n")?;
        assert_eq!(rt; told, (3, true), "{script}");
    }
    let awaited = ["@1 c 0000", "@1 c 00000000000000000000000000000000 9\nabc"];
    for script in awaited {
        let told = whole_replay(alloc, script, &[1], &[], "")?;
        assert_eq!(rt; told, (4, true), "{script}");
    }
    Ok(())
}
