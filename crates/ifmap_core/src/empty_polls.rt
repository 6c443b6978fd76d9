//! Whether a poll has nothing to tell. No call takes memory.
ghost use Rattle.std.specs.Prelude.{◌≡◌, ◌≢◌, ◌↔◌, ℕ, List, [], Some, IfNone, IfSome, IsTrue};
ghost use Rattle.ifmap_core.specs.EmptyPolls.{HasNothing};
ghost use Rattle.ifmap_subscribes.specs.ifmap_machine.declared.events.Ask.TheVariants as the_ask;
ghost use Rattle.ifmap_subscribes.specs.ifmap_requests.declared.requests.Request.TheVariants as the_request;
ghost use Rattle.ifmap_session.specs.Sessions.{IsLive, Session, session_with_serial};

use ifmap_elem::{Equals, Text};
use ifmap_meta::ClientName;
use ifmap_session::Sessions;
use ifmap_subscribes::{Ask, Request};

// The id of the session that a poll is in.
pub(crate) fn polled_id(ask: &Ask) -> Option<&Text>
    ensures some { IfSome result (λ id. ask.now ≡ the_ask.Request (the_request.Poll id.now)) }
    ensures none { IfNone result ((id : List ℕ)
        → ask.now ≢ the_ask.Request (the_request.Poll id)) }
{
    match ask {
        Ask::Lost(_) => None,
        Ask::Request(request) => polled_session(request),
    }
}

fn polled_session(request: &Request) -> Option<&Text>
    ensures some { IfSome result (λ id. request.now ≡ the_request.Poll id.now) }
    ensures none { IfNone result ((id : List ℕ) → request.now ≢ the_request.Poll id) }
{
    match request {
        Request::NewSession { .. } => None,
        Request::RenewSession { .. } => None,
        Request::EndSession { .. } => None,
        Request::Publish { .. } => None,
        Request::Search { .. } => None,
        Request::Subscribe { .. } => None,
        Request::Poll { session } => Some(session),
        Request::PurgePublisher { .. } => None,
    }
}

// Whether the session of that id is live and the client's, and has nothing to tell.
pub(crate) fn has_nothing(sessions: &Sessions, client: &ClientName, id: &Text) -> bool
    ensures { IsTrue result ↔ HasNothing sessions.now.live id.now client.now }
{
    match sessions.owner(id) {
        Some((serial, owner)) => owner.equals(client) && is_queue_empty(sessions, serial),
        None => false,
    }
}

// Whether nothing is queued in a live session.
fn is_queue_empty(sessions: &Sessions, serial: u64) -> bool
    requires { IsLive serial sessions.now.live }
    ensures { (s : Session) → session_with_serial serial sessions.now.live ≡ Some s
        → IsTrue result ↔ (s.queue ≡ []) }
{
    sessions.queue_size(serial).0 == 0
}
