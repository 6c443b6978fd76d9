//! A session from its beginning to its end.
ghost use Rattle.std.specs.Prelude.{◌≡◌, []};

use crate::makers::{
    FIRST, FIRST_ID, Named, begin_for, begins, client_of, has_names, has_size, moment_after,
    serial_for,
};
use ifmap_elem::Text;
use ifmap_meta::ClientName;
use ifmap_session::{BeginError, Begun, Opening, Sessions, limit_of};
use std::alloc::{AllocError as NoMemory, Global};

// How many live, and the serial that was given last.
fn has_counts(sessions: &Sessions, counts: (u64, u64)) -> bool {
    sessions.counts() == counts
}

// Whether a client has the session of that serial, or none.
fn has_session(alloc: Global, sessions: &Sessions, name: &str, serial: Option<u64>) -> bool {
    match client_of(alloc, name) {
        Ok(client) => sessions.of_client(&client) == serial,
        Err(_) => false,
    }
}

#[test]
fn the_first_session_has_serial_1_and_an_empty_queue(rt: HostRuntime) {
    let alloc = rt.alloc();
    let mut sessions = Sessions::new(alloc);
    assert!(rt; begins(alloc, &mut sessions, "c1", 0, FIRST));
    assert!(rt; has_session(alloc, &sessions, "c1", Some(1)));
    assert!(rt; has_size(alloc, &sessions, "c1", 0, 5_000_000));
}

fn is_empty(sessions: &Sessions) -> bool {
    sessions.is_table();
    has_counts(sessions, (0, 0))
}

fn is_ready(sessions: &Sessions, opening: &Opening) -> bool {
    is_empty(sessions) && opening.id().as_str() == FIRST_ID
}

fn open_first(alloc: Global, sessions: &mut Sessions, client: &ClientName) -> bool
    requires counter { sessions.old.counter ≡ 0 }
    requires live { sessions.old.live ≡ [] }
{
    let Ok(opening) = sessions.prepare(alloc, client, 1) else {
        return false;
    };
    let ready = is_ready(sessions, &opening);
    let begun = sessions.open(opening, 10_000, moment_after(0));
    ready && has_names(&begun, FIRST)
}

// Whether a session is prepared, which begins nothing, and is then opened as the first.
fn opens_first(alloc: Global, sessions: &mut Sessions, name: &str) -> bool
    requires counter { sessions.old.counter ≡ 0 }
    requires live { sessions.old.live ≡ [] }
{
    match client_of(alloc, name) {
        Ok(client) => open_first(alloc, sessions, &client),
        Err(_) => false,
    }
}

#[test]
fn a_session_that_was_prepared_is_opened(rt: HostRuntime) {
    let alloc = rt.alloc();
    let mut sessions = Sessions::new(alloc);
    assert!(rt; is_empty(&sessions));
    assert!(rt; opens_first(alloc, &mut sessions, "c1"));
    assert!(rt; has_counts(&sessions, (1, 1)));
    assert!(rt; has_session(alloc, &sessions, "c1", Some(1)));
    assert!(rt; has_size(alloc, &sessions, "c1", 0, 10_000));
}

// The serial and the client of a session.
type Owner = (u64, &'static str);

fn is_owner(owner: Option<(u64, &ClientName)>, wanted: Option<Owner>) -> bool {
    match owner {
        Some((serial, client)) => wanted == Some((serial, client.text().as_str())),
        None => wanted.is_none(),
    }
}

// Whether that id is of this session, or of none.
fn is_id_of(alloc: Global, sessions: &Sessions, id: &str, wanted: Option<Owner>) -> bool {
    match Text::from_str(alloc, id) {
        Ok(id) => is_owner(sessions.owner(&id), wanted),
        Err(_) => false,
    }
}

static OWNERS: [(&str, Option<Owner>); 5] = [
    (FIRST_ID, Some((1, "c1"))),
    ("", None),
    ("1", None),
    ("1-", None),
    ("2-00000000-0000-0000-0000-000000000001", None),
];

#[test]
fn ids_are_compared_whole(rt: HostRuntime) {
    let alloc = rt.alloc();
    let mut sessions = Sessions::new(alloc);
    assert!(rt; begins(alloc, &mut sessions, "c1", 0, FIRST));
    for (id, wanted) in &OWNERS {
        assert!(rt; is_id_of(alloc, &sessions, id, *wanted), "of {id}");
    }
}

// Whether a client's session was there to end.
fn ends(alloc: Global, sessions: &mut Sessions, name: &str) -> bool {
    match serial_for(alloc, sessions, name) {
        Some(serial) => {
            sessions.end(serial);
            true
        }
        None => false,
    }
}

const SECOND: Named = (2, "2-00000000-0000-0000-0000-000000000001");

#[test]
fn an_ended_session_is_nobodys(rt: HostRuntime) {
    let alloc = rt.alloc();
    let mut sessions = Sessions::new(alloc);
    assert!(rt; begins(alloc, &mut sessions, "c1", 0, FIRST));
    assert!(rt; has_session(alloc, &sessions, "c1", Some(1)));
    assert!(rt; ends(alloc, &mut sessions, "c1"));
    assert!(rt; is_id_of(alloc, &sessions, FIRST_ID, None));
    assert!(rt; has_session(alloc, &sessions, "c1", None));
    assert!(rt; has_counts(&sessions, (0, 1)));
    assert!(rt; begins(alloc, &mut sessions, "c1", 0, SECOND));
    assert!(rt; has_counts(&sessions, (1, 2)));
}

fn client_numbered(alloc: Global, number: u64) -> Result<ClientName, NoMemory> {
    ClientName::new(Text(format!(in alloc; "c{number}")?)).ok_or(NoMemory)
}

fn begins_numbered(alloc: Global, sessions: &mut Sessions, number: u64) -> bool {
    match client_numbered(alloc, number) {
        Ok(client) => matches!(begin_for(alloc, sessions, &client, 0), Some(Ok(_))),
        Err(_) => false,
    }
}

// Whether the sessions of the clients `c0`, `c1` and so on begin.
fn begin_all(alloc: Global, sessions: &mut Sessions, count: u64) -> bool {
    for number in 0..count {
        if !begins_numbered(alloc, sessions, number) {
            return false;
        }
    }
    true
}

fn is_refused(answer: &Option<Result<Begun, BeginError>>) -> bool {
    matches!(answer, Some(Err(BeginError::TooMany)))
}

// Whether a client that has no session gets none, since too many live.
fn is_one_too_many(alloc: Global, sessions: &mut Sessions, name: &str) -> bool {
    match client_of(alloc, name) {
        Ok(client) => is_refused(&begin_for(alloc, sessions, &client, 0)),
        Err(_) => false,
    }
}

const LAST: Named = (10_000, "10000-00000000-0000-0000-0000-000000000001");

const NEXT: Named = (10_001, "10001-00000000-0000-0000-0000-000000000001");

#[test]
fn ten_thousand_sessions_may_live(rt: HostRuntime) {
    let alloc = rt.alloc();
    let mut sessions = Sessions::new(alloc);
    assert!(rt; begin_all(alloc, &mut sessions, 9_999));
    assert!(rt; begins(alloc, &mut sessions, "d", 0, LAST));
    assert!(rt; is_one_too_many(alloc, &mut sessions, "e"));
    assert!(rt; has_counts(&sessions, (10_000, 10_000)));
    assert!(rt; ends(alloc, &mut sessions, "c7"));
    assert!(rt; begins(alloc, &mut sessions, "e", 0, NEXT));
    assert!(rt; has_counts(&sessions, (10_000, 10_001)));
}

static LIMITS: [(Option<u32>, u32); 7] = [
    (None, 5_000_000),
    (Some(0), 10_000),
    (Some(9_999), 10_000),
    (Some(10_000), 10_000),
    (Some(10_001), 10_001),
    (Some(5_000_000), 5_000_000),
    (Some(5_000_001), 5_000_000),
];

fn is_limit(asked: Option<u32>, limit: u32) -> bool {
    limit_of(asked) == limit
}

#[test]
fn a_limit_is_put_into_its_range(rt: HostRuntime) {
    for (asked, limit) in &LIMITS {
        assert!(rt; is_limit(*asked, *limit));
    }
}
