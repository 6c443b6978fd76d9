//! What no clause says: which bytes come back from a door, and that workers run beside each other.
ghost use Rattle.std.specs.Prelude.{◌≡◌};

use crate::desk::{CountingGate, Noted, PlainDesk, Plan};
use crate::gates::WaitingGate;
use crate::posts::{answers_of, posts_of};
use ifmap_io::{MemoryClock, MemoryDoor, MemoryLink, Moment};
use ifmap_serving::{Stand, serve, work};
use rand_chacha::ChaCha20Rng;
use rand_core::SeedableRng;
use rand_core::utils::NextWord;
use std::alloc::{AllocError as NoMemory, Global};
use std::collections::VecDeque;
use std::sync::Wait;
use std::sync::atomic::AtomicU64;
use std::test::Fail;
use std::time::Clock;

const BEGIN: &str = "<n2:newSession/>";

const RENEW: &str = "<n2:renewSession session-id=\"s\"/>";

const RENEWED: &str = "<renewSessionResult/>";

const KEY: [u8; 32] = [7; 32];

// Sessions begun with the first random words of the key's streams 0 and 1, by the ChaCha20 of another
// program: what is asked in them, and what is answered.
const SUBSCRIBE: &str =
    "<n2:subscribe session-id=\"1-7079b3ac-ba61-f514-41f6-aa57789200f4\"><update name=\"s\"><mac-address value=\"00:00:5e:00:53:01\"/></update></n2:subscribe>";

const POLL: &str = "<n2:poll session-id=\"1-7079b3ac-ba61-f514-41f6-aa57789200f4\"/>";

const PUBLISH: &str =
    "<n2:publish session-id=\"2-a5f18c19-346a-3cdf-ef65-ba9909737c6d\"><update><mac-address value=\"00:00:5e:00:53:01\"/><metadata><n3:role ifmap-cardinality=\"multiValue\"><name>r</name></n3:role></metadata></update></n2:publish>";

const FIRST_BEGUN: &str =
    "<newSessionResult ifmap-publisher-id=\"c1\" max-poll-result-size=\"5000000\" session-id=\"1-7079b3ac-ba61-f514-41f6-aa57789200f4\"/>";

const SECOND_BEGUN: &str =
    "<newSessionResult ifmap-publisher-id=\"c2\" max-poll-result-size=\"5000000\" session-id=\"2-a5f18c19-346a-3cdf-ef65-ba9909737c6d\"/>";

const SUBSCRIBED: &str = "<subscribeReceived/>";

const PUBLISHED: &str = "<publishReceived/>";

const TOLD: &str =
    "<pollResult><searchResult name=\"s\"/><updateResult name=\"s\"><resultItem><mac-address value=\"00:00:5e:00:53:01\"/><metadata><n3:role ifmap-cardinality=\"multiValue\" ifmap-publisher-id=\"c2\" ifmap-timestamp=\"2001-09-09T01:46:40Z\"><name>r</name></n3:role></metadata></resultItem></updateResult></pollResult>";

// A link that has these bytes left.
fn link_of(alloc: Global, left: &str) -> Result<MemoryLink, NoMemory> {
    let left = left.as_bytes().to_vec(alloc)?;
    Ok(MemoryLink::new(left, Vec::new(alloc), Vec::new(alloc)))
}

// A door with a link for each of these texts, of which these calls of `accept` fail.
fn door_of(alloc: Global, texts: &[&str], fails: &[u64]) -> Result<MemoryDoor, NoMemory> {
    let mut links = VecDeque::new(alloc);
    for text in texts {
        links.push_back(link_of(alloc, text)?)?;
    }
    MemoryDoor::new(alloc, links, fails.to_vec(alloc)?)
}

fn still_clock() -> MemoryClock {
    let start = Moment::new(1_000_000_000).unwrap();
    MemoryClock::new(start, 0, start)
}

fn open_gate() -> CountingGate {
    CountingGate {
        asks: 0,
        answers: 0,
    }
}

// What the link of this number that came back holds.
fn bytes_held(door: &MemoryDoor, number: usize) -> &[u8] {
    match door.back().get(number) {
        Some(link) => link.held(),
        None => &[],
    }
}

// The link of this number that came back got these results.
fn is_told(alloc: Global, door: &MemoryDoor, number: usize, results: &[&str]) -> bool {
    match answers_of(alloc, results) {
        Ok(answers) => bytes_held(door, number) == answers.as_bytes(),
        Err(_) => false,
    }
}

// One renewal of a client, two of another, and a byte that is no post.
fn renewals_door(alloc: Global) -> Result<MemoryDoor, NoMemory> {
    let one = posts_of(alloc, "c1", &[RENEW])?;
    let two = posts_of(alloc, "c2", &[RENEW, RENEW])?;
    door_of(alloc, &[&one, &two, "x"], &[])
}

// Serves the door at the desk, with the words of the key's first stream.
fn work_at(rt: &impl Wait, alloc: Global, desk: &mut PlainDesk, door: &mut MemoryDoor) -> u8 {
    let mut words = ChaCha20Rng::from_seed(KEY);
    work(
        rt,
        alloc,
        desk,
        door,
        &still_clock(),
        &mut words,
        &mut open_gate(),
    )
}

// Each was asked with the next words of that stream.
fn are_drawn(noted: &[Noted]) -> bool {
    let mut words = ChaCha20Rng::from_seed(KEY);
    let mut all = true;
    for note in noted {
        let random = next_random(&mut words);
        all = all && note.random == random;
    }
    all
}

// The next four words of the stream as one, the lowest first.
fn next_random(words: &mut ChaCha20Rng) -> u128 {
    let mut random = 0;
    for place in 0..4_u32 {
        random |= u128::from(words.next_word()) << (32 * place);
    }
    random
}

#[test]
fn the_connections_of_a_door_are_served_in_order(rt: HostRuntime) -> Result<(), Fail> {
    let alloc = rt.alloc();
    let mut door = renewals_door(alloc)?;
    let mut desk = PlainDesk::new(alloc, Vec::new(alloc), Plan::Answered, Plan::Answered);
    let status = work_at(&rt, alloc, &mut desk, &mut door);
    assert!(rt; status == 0 && door.back().len() == 3);
    assert!(rt; is_told(alloc, &door, 0, &[RENEWED]));
    assert!(rt; is_told(alloc, &door, 1, &[RENEWED, RENEWED]));
    assert!(rt; is_told(alloc, &door, 2, &[]));
    assert!(rt; desk.noted.len() == 3 && are_drawn(desk.noted.as_slice()));
    Ok(())
}

// A stand whose door has a link for each of so many clients that begin a session.
fn begins_stand(
    alloc: Global,
    count: usize,
    fails: &[u64],
) -> Result<Stand<MemoryDoor, CountingGate>, NoMemory> {
    let post = posts_of(alloc, "c1", &[BEGIN])?;
    let mut links = VecDeque::new(alloc);
    for _ in 0..count {
        links.push_back(link_of(alloc, &post)?)?;
    }
    let door = MemoryDoor::new(alloc, links, fails.to_vec(alloc)?)?;
    Ok(Stand::new(door, open_gate()))
}

fn failing_stands(alloc: Global) -> Result<[Stand<MemoryDoor, CountingGate>; 2], NoMemory> {
    let failing = begins_stand(alloc, 2, &[1])?;
    Ok([failing, begins_stand(alloc, 1, &[])?])
}

// Each stand has its place and that status, and one link came back to its door.
fn have_statuses(stands: &[Stand<MemoryDoor, CountingGate>], statuses: &[u8]) -> bool {
    let mut all = stands.len() == statuses.len();
    for (place, (stand, status)) in stands.iter().zip(statuses).enumerate() {
        let is_placed = stand.place as usize == place;
        all = all && is_placed && stand.status == *status && stand.door.back().len() == 1;
    }
    all
}

#[test]
fn a_door_that_fails_ends_the_work(rt: HostRuntime) -> Result<(), Fail> {
    let alloc = rt.alloc();
    let mut stands = failing_stands(alloc)?;
    let status = serve(&rt, alloc, KEY, &mut stands, &still_clock());
    assert!(rt; status == 7 && have_statuses(&stands, &[7, 0]));
    Ok(())
}

// A stand with the posts of one client, whose gate waits for another's.
fn waiting_stand<'a, R: Clock>(
    alloc: Global,
    client: &str,
    requests: &[&str],
    gate: WaitingGate<'a, R>,
) -> Result<Stand<MemoryDoor, WaitingGate<'a, R>>, NoMemory> {
    let posts = posts_of(alloc, client, requests)?;
    Ok(Stand::new(door_of(alloc, &[&posts], &[])?, gate))
}

// One subscribes, and polls after the other was answered; that one publishes after the first has
// subscribed.
fn stands_beside<'a, R: Clock>(
    rt: &'a R,
    alloc: Global,
    heard: &'a AtomicU64,
    said: &'a AtomicU64,
) -> Result<[Stand<MemoryDoor, WaitingGate<'a, R>>; 2], NoMemory> {
    let gate = WaitingGate::new(rt, heard, said, 2, 2);
    let listener = waiting_stand(alloc, "c1", &[BEGIN, SUBSCRIBE, POLL], gate)?;
    let gate = WaitingGate::new(rt, said, heard, 0, 2);
    Ok([
        listener,
        waiting_stand(alloc, "c2", &[BEGIN, PUBLISH], gate)?,
    ])
}

// The worker did not wait for too long, and these results were told.
fn has_told<R: Clock>(
    alloc: Global,
    stand: &Stand<MemoryDoor, WaitingGate<'_, R>>,
    results: &[&str],
) -> bool {
    !stand.gate.has_let_go() && is_told(alloc, &stand.door, 0, results)
}

#[test]
fn workers_run_beside_each_other(rt: HostRuntime) -> Result<(), Fail> {
    let alloc = rt.alloc();
    let heard = AtomicU64::new(0);
    let said = AtomicU64::new(0);
    let mut stands = stands_beside(&rt, alloc, &heard, &said)?;
    let status = serve(&rt, alloc, KEY, &mut stands, &still_clock());
    assert!(rt; status == 0);
    assert!(rt; has_told(alloc, &stands[0], &[FIRST_BEGUN, SUBSCRIBED, TOLD]));
    assert!(rt; has_told(alloc, &stands[1], &[SECOND_BEGUN, PUBLISHED]));
    Ok(())
}
