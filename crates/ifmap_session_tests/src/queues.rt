//! Queues of sessions.
ghost use Rattle.ifmap_session.specs.Sessions.{IsLive};

use crate::makers::{FIRST, begins, has_size, serial_for};
use ifmap_elem::Text;
use ifmap_ident::Code;
use ifmap_search::PollItem;
use ifmap_session::Sessions;
use std::alloc::{AllocError as NoMemory, Global};

// The name of a subscription or none, and a code.
type GivenError = (Option<&'static str>, Code);

fn name_of(alloc: Global, name: Option<&str>) -> Result<Option<Text>, NoMemory> {
    match name {
        Some(name) => Ok(Some(Text::from_str(alloc, name)?)),
        None => Ok(None),
    }
}

fn error_of(alloc: Global, told: GivenError) -> Result<PollItem, NoMemory> {
    let name = name_of(alloc, told.0)?;
    Ok(PollItem::Error {
        name,
        code: told.1,
        note: Text::from_str(alloc, "101 of 100")?,
    })
}

fn push_error(alloc: Global, sessions: &mut Sessions, serial: u64, told: GivenError) -> bool
    requires { IsLive serial sessions.old.live }
{
    if sessions.queue_room(serial, 1).is_err() {
        return false;
    }
    match error_of(alloc, told) {
        Ok(error) => {
            sessions.push(serial, error);
            true
        }
        Err(_) => false,
    }
}

// Whether there was memory to put an error last in the queue of the client `c1`.
fn queues(alloc: Global, sessions: &mut Sessions, told: GivenError) -> bool {
    match serial_for(alloc, sessions, "c1") {
        Some(serial) => push_error(alloc, sessions, serial, told),
        None => false,
    }
}

fn replace_by_error(alloc: Global, sessions: &mut Sessions, serial: u64, told: GivenError) -> bool
    requires { IsLive serial sessions.old.live }
{
    if sessions.queue_room(serial, 1).is_err() {
        return false;
    }
    match error_of(alloc, told) {
        Ok(error) => {
            sessions.overflow(serial, error);
            true
        }
        Err(_) => false,
    }
}

// Whether there was memory to put an error in place of all that is queued.
fn overflows(alloc: Global, sessions: &mut Sessions, told: GivenError) -> bool {
    match serial_for(alloc, sessions, "c1") {
        Some(serial) => replace_by_error(alloc, sessions, serial, told),
        None => false,
    }
}

fn drop_name(sessions: &mut Sessions, serial: u64, name: &Text)
    requires { IsLive serial sessions.old.live }
{
    sessions.drop_name(serial, name);
}

fn drop_from(alloc: Global, sessions: &mut Sessions, serial: u64, name: &str) -> bool
    requires { IsLive serial sessions.old.live }
{
    match Text::from_str(alloc, name) {
        Ok(name) => {
            drop_name(sessions, serial, &name);
            true
        }
        Err(_) => false,
    }
}

// Whether there was memory to drop what is queued of the subscription of that name.
fn drops(alloc: Global, sessions: &mut Sessions, name: &str) -> bool {
    match serial_for(alloc, sessions, "c1") {
        Some(serial) => drop_from(alloc, sessions, serial, name),
        None => false,
    }
}

fn is_name(name: &Option<Text>, wanted: Option<&str>) -> bool {
    match name {
        Some(name) => wanted == Some(name.as_str()),
        None => wanted.is_none(),
    }
}

fn is_error(item: &PollItem, told: &GivenError) -> bool {
    match item {
        PollItem::Error { name, code, .. } => is_name(name, told.0) && *code == told.1,
        _ => false,
    }
}

fn are_errors(items: &[PollItem], told: &[GivenError]) -> bool {
    items.len() == told.len() && (0..items.len()).all(|i| is_error(&items[i], &told[i]))
}

fn take_errors(sessions: &mut Sessions, serial: u64, told: &[GivenError]) -> bool
    requires { IsLive serial sessions.old.live }
{
    let items = sessions.take_all(serial);
    are_errors(items.as_slice(), told)
}

// Whether these errors are taken, and nothing else.
fn takes(alloc: Global, sessions: &mut Sessions, told: &[GivenError]) -> bool {
    match serial_for(alloc, sessions, "c1") {
        Some(serial) => take_errors(sessions, serial, told),
        None => false,
    }
}

fn is_size(alloc: Global, sessions: &Sessions, size: u64) -> bool {
    has_size(alloc, sessions, "c1", size, 5_000_000)
}

static QUEUED: [GivenError; 4] = [
    (Some("s"), Code::SearchResultsTooBig),
    (None, Code::SearchResultsTooBig),
    (Some("t"), Code::SearchResultsTooBig),
    (Some("s"), Code::SearchResultsTooBig),
];

#[test]
fn a_queue_is_filled_and_handed_out_in_order(rt: HostRuntime) {
    let alloc = rt.alloc();
    let mut sessions = Sessions::new(alloc);
    assert!(rt; begins(alloc, &mut sessions, "c1", 0, FIRST));
    for told in &QUEUED {
        assert!(rt; queues(alloc, &mut sessions, *told));
    }
    assert!(rt; is_size(alloc, &sessions, 400));
    // No subscription has that name; of the next one two items are queued.
    assert!(rt; drops(alloc, &mut sessions, ""));
    assert!(rt; is_size(alloc, &sessions, 400));
    assert!(rt; drops(alloc, &mut sessions, "s"));
    assert!(rt; is_size(alloc, &sessions, 200));
    assert!(rt; takes(alloc, &mut sessions, &QUEUED[1..3]));
    assert!(rt; is_size(alloc, &sessions, 0));
}

static OVERFLOWN: [GivenError; 1] = [(None, Code::PollResultsTooBig)];

#[test]
fn one_error_stands_in_place_of_a_queue(rt: HostRuntime) {
    let alloc = rt.alloc();
    let mut sessions = Sessions::new(alloc);
    assert!(rt; begins(alloc, &mut sessions, "c1", 0, FIRST));
    for told in &QUEUED[..2] {
        assert!(rt; queues(alloc, &mut sessions, *told));
    }
    assert!(rt; overflows(alloc, &mut sessions, OVERFLOWN[0]));
    assert!(rt; is_size(alloc, &sessions, 100));
    assert!(rt; takes(alloc, &mut sessions, &OVERFLOWN));
}
