//! What no clause says: tables of connections over links in memory.
ghost use Rattle.std.specs.Prelude.{◌≡◌};

use crate::desk::{CountingGate, EventKind, Noted, PlainDesk, Plan};
use ifmap_dialogue::{Ending, serve_connection};
use ifmap_http::Wire;
use ifmap_io::{MemoryClock, MemoryLink, Moment};
use rand_chacha::ChaCha20Rng;
use rand_core::SeedableRng;
use rand_core::utils::NextWord;
use std::alloc::{AllocError as NoMemory, Global};
use std::test::Fail;

const OPEN: &str =
    "<e:Envelope xmlns:e='http://www.w3.org/2003/05/soap-envelope' xmlns:i='http://www.trustedcomputinggroup.org/2010/IFMAP/2'><e:Body>";

const CLOSE: &str = "</e:Body></e:Envelope>";

const POLL: &str = "<i:poll session-id='s'/>";

const RENEW: &str = "<i:renewSession session-id='s'/>";

const RENEWED: &str = "<renewSessionResult/>";

const TOLD: &str = "<pollResult/>";

const BEFORE: &str =
    "<n1:Envelope xmlns:n1=\"http://www.w3.org/2003/05/soap-envelope\" xmlns:n2=\"http://www.trustedcomputinggroup.org/2010/IFMAP/2\"><n1:Body><n2:response>";

const AFTER: &str = "</n2:response></n1:Body></n1:Envelope>";

const FULL: &str =
    "HTTP/1.1 507 Insufficient Storage\r\ncontent-length: 0\r\nconnection: close\r\n\r\n";

// Appends a post of c1 with what stands in a body, which asks for closing or not.
fn push_post(alloc: Global, out: &mut String, inner: &str, close: bool) -> Result<(), NoMemory> {
    let length = OPEN
        .len()
        .saturating_add(inner.len())
        .saturating_add(CLOSE.len());
    let closing = if close { "connection: close\r\n" } else { "" };
    out.push_str("POST /ifmap HTTP/1.1\r\nifmap-client: c1\r\n")?;
    out.push_str(closing)?;
    out.push_str(&format!(in alloc; "content-length: {length}\r\n\r\n")?)?;
    for part in [OPEN, inner, CLOSE] {
        out.push_str(part)?;
    }
    Ok(())
}

/// Appends the answer with what stands in a response, which closes the connection or not.
pub fn push_answer(
    alloc: Global,
    out: &mut String,
    told: &str,
    close: bool,
) -> Result<(), NoMemory> {
    let length = BEFORE
        .len()
        .saturating_add(told.len())
        .saturating_add(AFTER.len());
    let closing = if close { "connection: close\r\n" } else { "" };
    out.push_str("HTTP/1.1 200 OK\r\ncontent-type: application/soap+xml\r\n")?;
    out.push_str(&format!(in alloc; "content-length: {length}\r\n")?)?;
    for part in [closing, "\r\n", BEFORE, told, AFTER] {
        out.push_str(part)?;
    }
    Ok(())
}

fn posts_of(alloc: Global, inners: &[&str]) -> Result<String, NoMemory> {
    let mut out = String::new(alloc);
    for inner in inners {
        push_post(alloc, &mut out, inner, false)?;
    }
    Ok(out)
}

fn answers_of(alloc: Global, results: &[&str]) -> Result<String, NoMemory> {
    let mut out = String::new(alloc);
    for result in results {
        push_answer(alloc, &mut out, result, false)?;
    }
    Ok(out)
}

// How a connection was served.
#[derive(Drop)]
struct Served {
    ending: Ending,
    link: MemoryLink,
    gate: CountingGate,
}

/// When connections begin.
pub fn start() -> Moment
    ensures { result ≡ 1000000000 }
{
    Moment::new(1_000_000_000).unwrap()
}

// Serves a link that has these bytes left and fails at these calls, with a clock that goes on by so many
// seconds at each pause.
fn serve(
    alloc: Global,
    desk: &mut PlainDesk,
    left: &str,
    fails: &[u64],
    step: u64,
) -> Result<Served, NoMemory> {
    let left = left.as_bytes().to_vec(alloc)?;
    let link = MemoryLink::new(left, Vec::new(alloc), fails.to_vec(alloc)?);
    let mut wire = Wire::new(alloc, link);
    let last = Moment::new(2_000_000_000).unwrap();
    let clock = MemoryClock::new(start(), step, last);
    let mut words = ChaCha20Rng::from_seed([1; 32]);
    let mut gate = CountingGate {
        asks: 0,
        answers: 0,
    };
    let ending = serve_connection(alloc, desk, &mut wire, &clock, &mut words, &mut gate);
    Ok(Served {
        ending,
        link: wire.into_link(),
        gate,
    })
}

fn desk_of(alloc: Global, polls: &[Plan], others: Plan, lost: Plan) -> Result<PlainDesk, NoMemory> {
    Ok(PlainDesk::new(alloc, polls.to_vec(alloc)?, others, lost))
}

// Whether a connection ended so, and this was written to its link.
fn is_served(served: &Served, ending: &Ending, held: &str) -> bool {
    served.ending == *ending && served.link.held() == held.as_bytes()
}

// The first words of the stream as one, the lowest first.
fn first_random() -> u128 {
    let mut words = ChaCha20Rng::from_seed([1; 32]);
    let mut random = 0;
    for place in 0..4_u32 {
        random |= u128::from(words.next_word()) << (32 * place);
    }
    random
}

// Whether a part of a post ends the connection so, and nothing is asked or written.
fn ends_with(alloc: Global, part: &str, ending: &Ending) -> Result<bool, NoMemory> {
    let mut desk = desk_of(alloc, &[Plan::Told], Plan::Answered, Plan::Answered)?;
    let served = serve(alloc, &mut desk, part, &[], 0)?;
    Ok(is_served(&served, ending, "") && desk.noted.is_empty())
}

#[test]
fn a_post_that_is_cut_is_truncated_and_asks_nothing(rt: HostRuntime) -> Result<(), Fail> {
    let alloc = rt.alloc();
    let post = posts_of(alloc, &[POLL])?;
    for cut in 0..post.len() {
        let part = post.get(..cut).expect(&rt, "a post of ASCII");
        let ending = if cut == 0 {
            Ending::Ended
        } else {
            Ending::Truncated
        };
        assert!(rt; ends_with(alloc, part, &ending)?, "at {cut}");
    }
    Ok(())
}

// The call that fails, the ending, the results that were answered before, and how often a lost answer
// was told.
type Failing = (u64, Ending, &'static [&'static str], u64);

static FAILING: [Failing; 6] = [
    (0, Ending::ReadFault, &[], 0),
    (1, Ending::WriteFault, &[], 1),
    (2, Ending::WriteFault, &[TOLD], 1),
    (3, Ending::WriteFault, &[TOLD], 0),
    (4, Ending::WriteFault, &[TOLD, RENEWED], 0),
    (5, Ending::ReadFault, &[TOLD, RENEWED], 0),
];

// Whether a link with these posts fails so.
fn fails_so(alloc: Global, posts: &str, failing: &Failing) -> Result<bool, NoMemory> {
    let (call, ending, results, lost) = failing;
    let held = answers_of(alloc, results)?;
    let mut desk = desk_of(alloc, &[Plan::Told], Plan::Answered, Plan::Answered)?;
    let served = serve(alloc, &mut desk, posts, &[*call], 0)?;
    Ok(is_served(&served, ending, &held) && desk.lost_in_s == *lost)
}

#[test]
fn each_call_of_the_link_fails_in_turn(rt: HostRuntime) -> Result<(), Fail> {
    let alloc = rt.alloc();
    let posts = posts_of(alloc, &[POLL, RENEW])?;
    for failing in &FAILING {
        let call = failing.0;
        assert!(rt; fails_so(alloc, &posts, failing)?, "{call}");
    }
    Ok(())
}

// Whether the ask of this place in a row of polls is as it is to be.
fn is_poll_at(noted: &Noted, place: u64, random: u128) -> bool {
    noted.kind == EventKind::Poll
        && noted.again == (place > 0)
        && noted.moment == 1_000_000_000_u64.saturating_add(place)
        && noted.random == random
        && noted.bytes == 176
}

fn are_polls(noted: &[Noted], random: u128) -> bool {
    noted
        .iter()
        .enumerate()
        .all(|(place, note)| is_poll_at(note, place as u64, random))
}

// Serves one poll at a desk, with a clock that goes on by a second at each pause.
fn serve_poll(alloc: Global, desk: &mut PlainDesk, fails: &[u64]) -> Result<Served, NoMemory> {
    serve(alloc, desk, &posts_of(alloc, &[POLL])?, fails, 1)
}

#[test]
fn a_poll_that_is_held_36000_times_is_held_out(rt: HostRuntime) -> Result<(), Fail> {
    let alloc = rt.alloc();
    let mut desk = desk_of(
        alloc,
        &[Plan::StillHeld, Plan::Held],
        Plan::Answered,
        Plan::Answered,
    )?;
    let served = serve_poll(alloc, &mut desk, &[])?;
    let held_out = is_served(&served, &Ending::HeldOut { turns: 36_000 }, "");
    let passes = (served.gate.asks, served.gate.answers);
    let polled = desk.noted.len() == 36_000 && are_polls(&desk.noted, first_random());
    assert!(rt; held_out && passes == (36_000, 0) && polled);
    Ok(())
}

#[test]
fn a_poll_is_asked_until_it_is_told_something(rt: HostRuntime) -> Result<(), Fail> {
    let alloc = rt.alloc();
    let plans = [Plan::StillHeld, Plan::Held, Plan::StillHeld, Plan::Told];
    let mut desk = desk_of(alloc, &plans, Plan::Answered, Plan::Answered)?;
    let served = serve_poll(alloc, &mut desk, &[])?;
    let told = is_served(&served, &Ending::Ended, &answers_of(alloc, &[TOLD])?);
    let polled = desk.noted.len() == 4 && are_polls(&desk.noted, first_random());
    assert!(rt; told && polled);
    Ok(())
}

// What the desk says to a lost answer, and the ending.
static LOSING: [(Plan, Ending); 3] = [
    (Plan::Answered, Ending::WriteFault),
    (Plan::Spent, Ending::Unheard { entries: 7 }),
    (Plan::NoMemory, Ending::NoMemory),
];

// Whether a desk was asked three times, the last time for the one lost answer.
fn was_told(desk: &PlainDesk) -> bool {
    let note = Noted {
        kind: EventKind::Lost,
        again: false,
        moment: 1_000_000_001,
        random: first_random(),
        bytes: 0,
    };
    desk.noted.len() == 3 && desk.lost_in_s == 1 && desk.noted.get(2) == Some(&note)
}

#[test]
fn an_answer_that_is_lost_is_told_to_the_desk(rt: HostRuntime) -> Result<(), Fail> {
    let alloc = rt.alloc();
    for (lost, ending) in &LOSING {
        let mut desk = desk_of(alloc, &[Plan::Held, Plan::Told], Plan::Answered, *lost)?;
        let served = serve_poll(alloc, &mut desk, &[1])?;
        assert!(rt; is_served(&served, ending, "") && was_told(&desk));
    }
    Ok(())
}

// How a post is served at a desk without a number left, and how often that was asked.
fn serve_spent(alloc: Global, inner: &str, fails: &[u64]) -> Result<(Served, usize), NoMemory> {
    let mut desk = desk_of(alloc, &[Plan::Spent], Plan::Spent, Plan::Answered)?;
    let served = serve(alloc, &mut desk, &posts_of(alloc, &[inner])?, fails, 0)?;
    Ok((served, desk.noted.len()))
}

// Whether a post is answered there, and asked once where the answer cannot be written.
fn is_spent(alloc: Global, inner: &str) -> Result<bool, NoMemory> {
    let (served, _) = serve_spent(alloc, inner, &[])?;
    let answered = is_served(&served, &Ending::Spent { entries: 7 }, FULL);
    let (failed, asked) = serve_spent(alloc, inner, &[1])?;
    Ok(answered && failed.ending == Ending::WriteFault && asked == 1)
}

#[test]
fn a_desk_without_a_number_left_is_answered_507(rt: HostRuntime) -> Result<(), Fail> {
    for inner in [POLL, RENEW] {
        assert!(rt; is_spent(rt.alloc(), inner)?);
    }
    Ok(())
}

// A renewal, a poll that asks for closing, and a renewal.
fn closing_posts(alloc: Global) -> Result<String, NoMemory> {
    let mut posts = posts_of(alloc, &[RENEW])?;
    push_post(alloc, &mut posts, POLL, true)?;
    push_post(alloc, &mut posts, RENEW, false)?;
    Ok(posts)
}

// The answers to the first two of them.
fn closing_answers(alloc: Global) -> Result<String, NoMemory> {
    let mut held = answers_of(alloc, &[RENEWED])?;
    push_answer(alloc, &mut held, TOLD, true)?;
    Ok(held)
}

#[test]
fn a_post_that_asks_for_it_closes_the_connection(rt: HostRuntime) -> Result<(), Fail> {
    let alloc = rt.alloc();
    let mut desk = desk_of(alloc, &[Plan::Told], Plan::Answered, Plan::Answered)?;
    let served = serve(alloc, &mut desk, &closing_posts(alloc)?, &[], 0)?;
    let closed = is_served(&served, &Ending::Closed, &closing_answers(alloc)?);
    assert!(rt; closed && desk.noted.len() == 2);
    Ok(())
}
