//! Clients, moments, and sessions that begin.
ghost use Rattle.std.specs.Prelude.{IfSome};
ghost use Rattle.ifmap_session.specs.Sessions.{IsLive};

use ifmap_elem::Text;
use ifmap_io::Moment;
use ifmap_meta::ClientName;
use ifmap_session::{BeginError, Begun, Sessions, limit_of};
use std::alloc::{AllocError as NoMemory, Global};

const START: u64 = 1_000_000_000;

// A serial and an id.
pub(crate) type Named = (u64, &'static str);

// The id of serial 1 and the random word 1.
pub(crate) const FIRST_ID: &str = "1-00000000-0000-0000-0000-000000000001";

pub(crate) const FIRST: Named = (1, FIRST_ID);

pub(crate) fn client_of(alloc: Global, name: &str) -> Result<ClientName, NoMemory> {
    ClientName::new(Text::from_str(alloc, name)?).ok_or(NoMemory)
}

// The moment so many seconds after the first.
pub(crate) fn moment_after(seconds: u32) -> Moment {
    Moment::new(START + seconds as u64).unwrap()
}

// What comes of beginning a session with the random word 1; nothing where the client has one.
pub(crate) fn begin_for(
    alloc: Global,
    sessions: &mut Sessions,
    client: &ClientName,
    after: u32,
) -> Option<Result<Begun, BeginError>> {
    if sessions.of_client(client).is_some() {
        return None;
    }
    Some(sessions.begin(alloc, client, 1, limit_of(None), moment_after(after)))
}

pub(crate) fn has_names(begun: &Begun, wanted: Named) -> bool {
    begun.serial == wanted.0 && begun.id.as_str() == wanted.1
}

fn is_begun(answer: &Option<Result<Begun, BeginError>>, wanted: Named) -> bool {
    match answer {
        Some(Ok(begun)) => has_names(begun, wanted),
        _ => false,
    }
}

// Whether a session of a client that has none begins, so many seconds after the first moment.
pub(crate) fn begins(
    alloc: Global,
    sessions: &mut Sessions,
    name: &str,
    after: u32,
    wanted: Named,
) -> bool {
    match client_of(alloc, name) {
        Ok(client) => is_begun(&begin_for(alloc, sessions, &client, after), wanted),
        Err(_) => false,
    }
}

// The serial of a client's session; nothing also at want of memory for the name.
pub(crate) fn serial_for(alloc: Global, sessions: &Sessions, name: &str) -> Option<u64>
    ensures { IfSome result (λ serial. IsLive serial sessions.now.live) }
{
    match client_of(alloc, name) {
        Ok(client) => sessions.of_client(&client),
        Err(_) => None,
    }
}

// Whether the size of the queue of a client's session and its limit are these.
pub(crate) fn has_size(
    alloc: Global,
    sessions: &Sessions,
    name: &str,
    size: u64,
    limit: u32,
) -> bool {
    match serial_for(alloc, sessions, name) {
        Some(serial) => sessions.queue_size(serial) == (size, limit),
        None => false,
    }
}
