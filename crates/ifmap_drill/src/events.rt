//! The events of a drill.
ghost use Rattle.std.specs.Prelude.{◌≡◌, ◌<◌, IfOk, OnOk, length};
ghost use Rattle.std.specs.List.{AllByRecursion};
ghost use Rattle.ifmap_elem.specs.Chars.{IsCharacters};
ghost use Rattle.ifmap_requests.specs.Fit.{IsFitRequest};
ghost use Rattle.ifmap_writing.specs.Bounds.{IsBounded};
ghost use Rattle.ifmap_writing.specs.RequestElements.{request_bytes};
ghost use Rattle.ifmap_drill.specs.Events.{client_name, event_at};
ghost use Rattle.ifmap_drill.specs.Extent.{client_count};
ghost use Rattle.ifmap_io.specs.Limits.{most_events};
ghost use Rattle.ifmap_drill.specs.Requests.{request_at, session_of};

use crate::bodies::{Received, send_through};
use crate::requests::request_by;
use crate::tasks::{CLIENT_COUNT, task_at};
use ifmap_core::{Ask, Event};
use ifmap_elem::{Copied, Many, Text};
use ifmap_ident::laws::mac_addresses_are_identifiers;
use ifmap_io::Moment;
use ifmap_meta::ClientName;
use ifmap_meta::laws::stamped_metadata_are_whole;
use ifmap_requests::Request;
use rand_pcg::Lcg128Xsl64;
use std::alloc::{AllocError as NoMemory, Global};

// When the first event is.
const BEGINNING: u64 = 1_000_000_000;

// How many events there are in a second.
const EVENTS_EACH_SECOND: u32 = 100;

/// Event `i`, for clients with these ids of sessions.
pub fn make_event(
    alloc: Global,
    i: u32,
    ids: &Many<Text>,
    draws: &mut Lcg128Xsl64,
) -> Result<Event, NoMemory>
    requires few { i < most_events }
    requires fit { AllByRecursion IsCharacters ids.now }
    ensures event { IfOk result (λ event.
        event ≡ event_at i (request_at i ids.now draws.old).0) }
    ensures rest { OnOk result (draws.new ≡ (request_at i ids.now draws.old).1) }
{
    mac_addresses_are_identifiers();
    stamped_metadata_are_whole();
    let client = i % CLIENT_COUNT;
    let session = session_of(alloc, ids, client)?;
    let request = request_by(alloc, task_at(i), client, session, draws)?;
    event_through(alloc, i, &request)
}

// The id of a client's session; no characters where it has none.
fn session_of(alloc: Global, ids: &Many<Text>, client: u32) -> Result<Text, NoMemory>
    ensures { IfOk result (λ id. id ≡ session_of client ids.now) }
{
    match ids.as_slice().get(client as usize) {
        Some(id) => id.copy(alloc),
        None => Ok(Text::new(alloc)),
    }
}

// Event `i`, which asks a request, through the bytes of its body.
fn event_through(alloc: Global, i: u32, request: &Request) -> Result<Event, NoMemory>
    requires few { i < most_events }
    requires fit { IsFitRequest request.now }
    requires bounded { IsBounded request.now }
    ensures { IfOk result (λ event. event ≡ event_at i request.now) }
{
    let received = send_through(alloc, request)?;
    event_at(alloc, i, received)
}

// Event `i`, which asks this request.
fn event_at(alloc: Global, i: u32, received: Received) -> Result<Event, NoMemory>
    requires few { i < most_events }
    requires fit { IsFitRequest received.request }
    requires bytes { received.bytes ≡ length (request_bytes received.request) }
    ensures { IfOk result (λ event. event ≡ event_at i received.request) }
{
    let client = client_name(alloc, i % CLIENT_COUNT)?;
    let Received { request, bytes } = received;
    Ok(Event {
        moment: Moment::new(BEGINNING + u64::from(i / EVENTS_EACH_SECOND)).unwrap(),
        client,
        random: u128::from(i) + 1,
        again: false,
        bytes,
        ask: Ask::Request(request),
    })
}

// `d` and the client's number.
fn client_name(alloc: Global, client: u32) -> Result<ClientName, NoMemory>
    requires { client < client_count }
    ensures { IfOk result (λ name. name ≡ client_name client) }
{
    Ok(ClientName::new(Text(format!(in alloc; "d{client}")?)).unwrap())
}
