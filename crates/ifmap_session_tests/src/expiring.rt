//! Sessions that expire.
use crate::makers::{FIRST, Named, begins, moment_after, serial_for};
use ifmap_io::Moment;
use ifmap_session::Sessions;
use std::alloc::Global;

const TTL: u32 = 180;

// A client, the second at which its session begins, and its serial and id.
type Beginning = (&'static str, u32, Named);

// Ten seconds after one another.
static THREE: [Beginning; 3] = [
    ("c1", 0, FIRST),
    ("c2", 10, (2, "2-00000000-0000-0000-0000-000000000001")),
    ("c3", 20, (3, "3-00000000-0000-0000-0000-000000000001")),
];

// Whether a client's session was there to renew.
fn renews(alloc: Global, sessions: &mut Sessions, name: &str, after: u32) -> bool {
    match serial_for(alloc, sessions, name) {
        Some(serial) => {
            sessions.renew(serial, moment_after(after));
            true
        }
        None => false,
    }
}

fn are_expired(alloc: Global, sessions: &Sessions, moment: Moment, serials: &[u64]) -> bool {
    match sessions.expired(alloc, moment, TTL) {
        Ok(expired) => expired.as_slice() == serials,
        Err(_) => false,
    }
}

fn is_any_expired(sessions: &Sessions, moment: Moment) -> bool {
    sessions.any_expired(moment, TTL)
}

// Whether the sessions of these serials, and no others, are expired so many seconds after the
// first moment.
fn expire(alloc: Global, sessions: &Sessions, after: u32, serials: &[u64]) -> bool {
    let moment = moment_after(after);
    are_expired(alloc, sessions, moment, serials)
        && is_any_expired(sessions, moment) != serials.is_empty()
}

static EXPIRED: [(u32, &[u64]); 7] = [
    (0, &[]),
    (189, &[]),
    (190, &[2]),
    (200, &[2, 3]),
    (209, &[2, 3]),
    (210, &[1, 2, 3]),
    // An earlier moment than those before.
    (189, &[]),
];

#[test]
fn a_session_expires_ttl_seconds_after_its_last_request(rt: HostRuntime) {
    let alloc = rt.alloc();
    let mut sessions = Sessions::new(alloc);
    for (name, after, wanted) in &THREE {
        assert!(rt; begins(alloc, &mut sessions, name, *after, *wanted));
    }
    // The first asks once more, 30 seconds after its beginning.
    assert!(rt; renews(alloc, &mut sessions, "c1", 30));
    for (after, serials) in &EXPIRED {
        assert!(rt; expire(alloc, &sessions, *after, serials), "after {after}");
    }
}
