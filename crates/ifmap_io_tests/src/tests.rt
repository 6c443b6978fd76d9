//! What no clause says.
use ifmap_io::{
    Clock, Door, Failed, Link, MemoryClock, MemoryDoor, MemoryLink, MemorySink, MemorySource,
    Moment, Sink, Source, StdSink, StdSource, SystemClock, TcpDoor, TcpLink,
};
use std::collections::VecDeque;
use std::fs::File;
use std::net::{TcpListener, TcpStream};
use std::test::Fail;
use std::thread;
use std::thread::Threads;

// What four reads answer, of which the second fails, and whether each took what it says.
fn read_answers(source: &mut MemorySource) -> [Result<usize, Failed>; 4] {
    let mut room = [0; 3];
    let mut answers = [Ok(0); 4];
    for answer in answers.iter_mut() {
        *answer = source.read(&mut room);
    }
    if room == *b"dec" {
        answers
    } else {
        [Err(Failed); 4]
    }
}

// What writes and flushes answer in turn, of which the second and third fail.
fn write_answers(sink: &mut MemorySink) -> [Result<(), Failed>; 5] {
    [
        sink.write_all(b"bc"),
        sink.flush(),
        sink.write_all(b"d"),
        sink.flush(),
        sink.write_all(b"e"),
    ]
}

#[test]
fn a_listed_read_fails_and_takes_nothing(rt: HostRuntime) -> Result<(), Fail> {
    let alloc = rt.alloc();
    let mut source = MemorySource::new(b"abcde".to_vec(alloc)?, [1].to_vec(alloc)?);
    assert_eq!(rt;
        read_answers(&mut source),
        [Ok(3), Err(Failed), Ok(2), Ok(0)]
    );
    Ok(())
}

#[test]
fn a_listed_write_fails_and_writes_nothing(rt: HostRuntime) -> Result<(), Fail> {
    let alloc = rt.alloc();
    let mut sink = MemorySink::new(b"a".to_vec(alloc)?, [1, 2].to_vec(alloc)?);
    let answers = write_answers(&mut sink);
    assert_eq!(rt; answers, [Ok(()), Err(Failed), Err(Failed), Ok(()), Ok(())]);
    assert!(rt; sink.held() == b"abce".as_slice());
    Ok(())
}

fn link_of(rt: &HostRuntime, left: &[u8], fails: &[u64]) -> Result<MemoryLink, Fail> {
    let alloc = rt.alloc();
    Ok(MemoryLink::new(left.to_vec(alloc)?, Vec::new(alloc), fails.to_vec(alloc)?))
}

// What reads and writes answer in turn, of which the second and third fail.
fn link_answers(link: &mut MemoryLink) -> ([Result<usize, Failed>; 3], [Result<(), Failed>; 3]) {
    let mut room = [0; 2];
    let first = link.read(&mut room);
    let write = link.write_all(b"x");
    let second = link.read(&mut room);
    let writes = [write, link.write_all(b"y"), link.flush()];
    ([first, second, link.read(&mut room)], writes)
}

#[test]
fn a_link_counts_its_reads_and_writes_together(rt: HostRuntime) -> Result<(), Fail> {
    let mut link = link_of(&rt, b"abc", &[1, 2])?;
    let (reads, writes) = link_answers(&mut link);
    assert_eq!(rt; reads, [Ok(2), Err(Failed), Ok(1)]);
    assert_eq!(rt; writes, [Err(Failed), Ok(()), Ok(())]);
    assert!(rt; link.held() == b"y".as_slice());
    Ok(())
}

// Writes what the link says back to it, until its end or a fault.
fn echo<L: Link>(link: &mut L) {
    for _ in 0..u64::MAX {
        let mut room = [0; 4];
        let Ok(count) = link.read(&mut room) else {
            return;
        };
        if count == 0 || link.write_all(&room[..count]).is_err() {
            return;
        }
    }
}

// Serves the door's links until none is left, or the door fails.
fn serve<D: Door, C: Clock>(door: &mut D, clock: &C) -> bool {
    for _ in 0..u64::MAX {
        match door.accept() {
            Ok(Some(mut link)) => {
                echo(&mut link);
                door.ended(link);
                clock.pause();
            }
            Ok(None) => return true,
            Err(Failed) => return false,
        }
    }
    false
}

// A door of two links, whose second call fails.
fn two_links(rt: &HostRuntime) -> Result<MemoryDoor, Fail> {
    let alloc = rt.alloc();
    let mut links = VecDeque::new(alloc);
    links.push_back(link_of(rt, b"first", &[])?)?;
    links.push_back(link_of(rt, b"second", &[])?)?;
    Ok(MemoryDoor::new(alloc, links, [1].to_vec(alloc)?)?)
}

// Whether so many links are back, the first of them with these bytes.
fn has_back(door: &MemoryDoor, texts: &[&[u8]]) -> bool {
    door.back().len() == texts.len()
        && door
            .back()
            .iter()
            .zip(texts)
            .all(|(link, text)| link.held() == *text)
}

// Whether a door fails once and goes on, and has its links back as they were served.
fn hands_out(door: &mut MemoryDoor) -> bool {
    let Some(moment) = Moment::new(5) else {
        return false;
    };
    let clock = MemoryClock::new(moment, 1, moment);
    let failed = !serve(door, &clock) && has_back(door, &[b"first"]);
    failed && serve(door, &clock) && has_back(door, &[b"first", b"second"])
}

#[test]
fn a_door_hands_out_its_links_and_takes_them_back(rt: HostRuntime) -> Result<(), Fail> {
    let mut door = two_links(&rt)?;
    let handed_out = hands_out(&mut door);
    door.ended(link_of(&rt, b"", &[])?);
    assert_eq!(rt; (handed_out, door.back().len()), (true, 2));
    Ok(())
}

// Whether a clock shows these seconds, a pause between each two.
fn shows<C: Clock>(clock: &C, wanted: &[u64]) -> bool {
    wanted.iter().all(|seconds| {
        let is_shown = clock.now().seconds() == *seconds;
        clock.pause();
        is_shown
    })
}

#[test]
fn clocks_go_on(rt: HostRuntime) -> Result<(), Fail> {
    let (Some(first), Some(last)) = (Moment::new(10), Moment::new(15)) else {
        return Ok(());
    };
    let clock = MemoryClock::new(first, 2, last);
    assert!(rt; shows(&clock, &[10, 12, 14, 15, 15]));
    // The system's, after the year 2020.
    let clock = SystemClock::new(&rt);
    let before = clock.now();
    clock.pause();
    assert!(rt; before.seconds() > 1_577_836_800);
    assert!(rt; before <= clock.now());
    Ok(())
}

// Whether the bytes are written, and handed on.
fn writes<S: Sink>(sink: &mut S, bytes: &[u8]) -> bool {
    sink.write_all(bytes).is_ok() && sink.flush().is_ok()
}

// Whether a source has these bytes, at most sixteen, and then none.
fn reads<S: Source>(source: &mut S, bytes: &[u8]) -> bool {
    let mut room = [0; 16];
    source.read(&mut room) == Ok(bytes.len())
        && room.starts_with(bytes)
        && source.read(&mut room) == Ok(0)
}

#[test]
fn a_file_is_a_sink_and_then_a_source(rt: HostRuntime) -> Result<(), Fail> {
    let written = writes(&mut StdSink::new(File::create(&rt, "bytes")?), b"on disk");
    let read = reads(&mut StdSource::new(File::open(&rt, "bytes")?), b"on disk");
    // The file is open for reading alone.
    let refused = StdSink::new(File::open(&rt, "bytes")?).write_all(b"no");
    assert_eq!(rt; (written, read, refused), (true, true, Err(Failed)));
    Ok(())
}

// What goes from a client through a door's link, and what the client reads once the link has ended.
fn carries(door: &mut TcpDoor<'_>, client: &mut TcpLink) -> bool {
    let Ok(Some(mut server)) = door.accept() else {
        return false;
    };
    let mut room = [0; 16];
    let carried = writes(client, b"ping") && server.read(&mut room) == Ok(4);
    door.ended(server);
    carried && room.starts_with(b"ping") && client.read(&mut room) == Ok(0)
}

#[test]
fn a_socket_is_a_link_of_a_door(rt: HostRuntime) -> Result<(), Fail> {
    let listener = TcpListener::bind(&rt, "127.0.0.1:0")?;
    let mut client = TcpLink::new(TcpStream::connect(&rt, listener.local_addr()?)?);
    let mut door = TcpDoor::new(&listener);
    let carried = carries(&mut door, &mut client);
    listener.set_nonblocking(true)?;
    let none = door.accept().is_err();
    assert!(rt; carried && none);
    Ok(())
}

// Serves each door in a thread of its own, over one clock.
fn serve_all<R: Threads + Sync, D: Door + Send, C: Clock + Sync>(
    rt: &R,
    doors: &mut [D],
    clock: &C,
) {
    let count = doors.len().max(1);
    thread::for_each_mut(
        rt,
        doors,
        count,
        &|_, door| {
            serve(door, clock);
        },
    );
}

// Two doors, each of one link.
fn two_doors(rt: &HostRuntime) -> Result<Vec<MemoryDoor>, Fail> {
    let alloc = rt.alloc();
    let mut doors = Vec::new(alloc);
    for text in [b"one", b"two"] {
        let mut links = VecDeque::new(alloc);
        links.push_back(link_of(rt, text, &[])?)?;
        doors.push(MemoryDoor::new(alloc, links, Vec::new(alloc))?)?;
    }
    Ok(doors)
}

// What a clock says after both doors were served beside each other, where each has its link back.
fn serve_beside(rt: &(impl Threads + Sync), doors: &mut [MemoryDoor]) -> Option<u64> {
    let clock = MemoryClock::new(Moment::new(0)?, 1, Moment::new(9)?);
    serve_all(rt, doors, &clock);
    let are_back = has_back(doors.first()?, &[b"one"]) && has_back(doors.last()?, &[b"two"]);
    are_back.then_some(clock.now().seconds())
}

#[test]
fn doors_and_links_cross_threads(rt: HostRuntime) -> Result<(), Fail> {
    let mut doors = two_doors(&rt)?;
    assert_eq!(rt; serve_beside(&rt, &mut doors), Some(2));
    Ok(())
}
