//! Connections one after another at one server, with what each is answered.
use crate::posts::{answers_of, posts_of};
use crate::servers::{serve, stand_of};
use ifmap_io::{MemoryDoor, MemoryLink};
use std::alloc::{AllocError as NoMemory, Global};
use std::collections::VecDeque;
use std::test::Fail;

const NEW: &str = "<n2:newSession/>";

// In the first session that a server begins whose words are made of the key of these tests; its random
// word is by the ChaCha20 of another program.
const SUBSCRIBE: &str =
    "<n2:subscribe session-id=\"1-7079b3ac-ba61-f514-41f6-aa57789200f4\"><update name=\"s\"><mac-address value=\"00:00:5e:00:53:01\"/></update></n2:subscribe>";

const POLL: &str = "<n2:poll session-id=\"1-7079b3ac-ba61-f514-41f6-aa57789200f4\"/>";

const RENEW: &str = "<n2:renewSession session-id=\"1-7079b3ac-ba61-f514-41f6-aa57789200f4\"/>";

const BEGUN: &str =
    "<newSessionResult ifmap-publisher-id=\"c1\" max-poll-result-size=\"5000000\" session-id=\"1-7079b3ac-ba61-f514-41f6-aa57789200f4\"/>";

const SUBSCRIBED: &str = "<subscribeReceived/>";

const TOLD: &str = "<pollResult><searchResult name=\"s\"/></pollResult>";

const RENEWED: &str = "<renewSessionResult/>";

const ENDED: &str = "<endSessionResult/>";

const DENIED: &str =
    "<errorResult errorCode=\"AccessDenied\"><errorString>AccessDenied</errorString></errorResult>";

const NO_SESSION: &str =
    "<errorResult errorCode=\"InvalidSessionID\"><errorString>InvalidSessionID</errorString></errorResult>";

// A connection: who asks what, which calls of its link fail, and what it is answered.
struct Connection {
    client: &'static str,
    requests: &'static [&'static str],
    fails: &'static [u64],
    results: &'static [&'static str],
}

// Connections, by how many seconds the clock goes on at each pause, and how many asks they come to.
struct Case {
    step: u64,
    connections: &'static [Connection],
    asks: u64,
}

static CASES: [Case; 5] = [
    // A session is its client's own, over any connection.
    Case {
        step: 0,
        connections: &[
            Connection {
                client: "c1",
                requests: &[NEW],
                fails: &[],
                results: &[BEGUN],
            },
            Connection {
                client: "c2",
                requests: &[RENEW, POLL],
                fails: &[],
                results: &[DENIED, DENIED],
            },
            Connection {
                client: "c1",
                requests: &[RENEW],
                fails: &[],
                results: &[RENEWED],
            },
        ],
        asks: 4,
    },
    // What a poll is told comes once.
    Case {
        step: 0,
        connections: &[
            Connection {
                client: "c1",
                requests: &[NEW, SUBSCRIBE],
                fails: &[],
                results: &[BEGUN, SUBSCRIBED],
            },
            Connection {
                client: "c1",
                requests: &[POLL, RENEW],
                fails: &[],
                results: &[TOLD, RENEWED],
            },
        ],
        asks: 4,
    },
    // The answer to a poll is not written, and its session ends.
    Case {
        step: 0,
        connections: &[
            Connection {
                client: "c1",
                requests: &[NEW, SUBSCRIBE],
                fails: &[],
                results: &[BEGUN, SUBSCRIBED],
            },
            Connection {
                client: "c1",
                requests: &[POLL],
                fails: &[1],
                results: &[],
            },
            Connection {
                client: "c1",
                requests: &[POLL, RENEW],
                fails: &[],
                results: &[NO_SESSION, NO_SESSION],
            },
        ],
        asks: 6,
    },
    // A poll is held until its session is expired, 180 pauses later.
    Case {
        step: 1,
        connections: &[Connection {
            client: "c1",
            requests: &[NEW, POLL, RENEW],
            fails: &[],
            results: &[BEGUN, ENDED, NO_SESSION],
        }],
        asks: 183,
    },
    // With a clock that stands still it is held as often as can be.
    Case {
        step: 0,
        connections: &[Connection {
            client: "c1",
            requests: &[NEW, POLL, RENEW],
            fails: &[],
            results: &[BEGUN],
        }],
        asks: 36_001,
    },
];

fn link_of(alloc: Global, connection: &Connection) -> Result<MemoryLink, NoMemory> {
    let posts = posts_of(alloc, connection.client, connection.requests)?;
    let left = posts.as_bytes().to_vec(alloc)?;
    let fails = connection.fails.to_vec(alloc)?;
    Ok(MemoryLink::new(left, Vec::new(alloc), fails))
}

fn links_of(alloc: Global, case: &Case) -> Result<VecDeque<MemoryLink>, NoMemory> {
    let mut links = VecDeque::new(alloc);
    for connection in case.connections {
        links.push_back(link_of(alloc, connection)?)?;
    }
    Ok(links)
}

// The link that came back holds the answers that are due.
fn is_answered(alloc: Global, connection: &Connection, held: &[u8]) -> Result<bool, NoMemory> {
    let answers = answers_of(alloc, connection.results)?;
    Ok(held == answers.as_bytes())
}

fn are_answered(alloc: Global, case: &Case, door: &MemoryDoor) -> Result<bool, NoMemory> {
    let mut all = door.back().len() == case.connections.len();
    for (connection, link) in case.connections.iter().zip(door.back()) {
        all = all && is_answered(alloc, connection, link.held())?;
    }
    Ok(all)
}

#[test]
fn connections_are_answered_in_turn(rt: HostRuntime) -> Result<(), Fail> {
    let alloc = rt.alloc();
    for (number, case) in CASES.iter().enumerate() {
        let mut stands = [stand_of(alloc, links_of(alloc, case)?)?];
        let (status, _) = serve(&rt, alloc, "1", case.step, &mut stands)?;
        let answered = are_answered(alloc, case, &stands[0].door)?;
        assert!(rt; status == 0 && answered, "case {number}");
        assert!(rt; stands[0].gate.asks == case.asks, "case {number}");
    }
    Ok(())
}
