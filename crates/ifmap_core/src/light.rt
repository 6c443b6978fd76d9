//! Renewals and polls in a session of the client's, where nothing is pending. No call takes memory.
ghost use Rattle.std.specs.Prelude.{◌≡◌, ◌≢◌, Some, IfNone, IfSome};
ghost use Rattle.ifmap_core.specs.Light.{IsLight};
ghost use Rattle.ifmap_core.specs.Completions.{IsStepCompletion, IsOwner};
ghost use Rattle.ifmap_core.specs.declared.owning.Owner.TheVariants.{Own};
ghost use Rattle.ifmap_subscribes.specs.ifmap_machine.declared.events.Ask.TheVariants as the_ask;
ghost use Rattle.ifmap_session.specs.Sessions.{Session, session_with_id};

use crate::completions::Completion;
use ifmap_elem::{Equals, Text};
use ifmap_meta::ClientName;
use ifmap_session::Sessions;
use ifmap_subscribes::{Answer, Ask, Event, Reply, Request};

// What is left to do of an event that renews or polls a live session of the client's.
pub(crate) fn light_completion(sessions: &Sessions, event: &Event) -> Option<Completion>
    ensures some { IfSome result (λ completion.
        IsStepCompletion sessions.now.live event.now event.now.ask completion) }
    ensures none { IfNone result (IsLight sessions.now.live event.now → ⊥) }
{
    match &event.ask {
        Ask::Lost(_) => None,
        Ask::Request(request) => completion_in(sessions, event, request),
    }
}

// The same of a request.
fn completion_in(sessions: &Sessions, event: &Event, request: &Request) -> Option<Completion>
    ensures some { IfSome result (λ completion. IsStepCompletion sessions.now.live event.now
        (the_ask.Request request.now) completion) }
    ensures none { IfNone result (event.now.ask ≡ the_ask.Request request.now
        → IsLight sessions.now.live event.now → ⊥) }
{
    match request {
        Request::NewSession { .. } => None,
        Request::RenewSession { session } => {
            let serial = own_serial(sessions, &event.client, session)?;
            let answer = Answer::Reply(Reply::Renewed);
            Some(Completion::Accept { serial, answer })
        }
        Request::EndSession { .. } => None,
        Request::Publish { .. } => None,
        Request::Search { .. } => None,
        Request::Subscribe { .. } => None,
        Request::Poll { session } => {
            let serial = own_serial(sessions, &event.client, session)?;
            let again = event.again;
            Some(Completion::Poll { serial, again })
        }
        Request::PurgePublisher { .. } => None,
    }
}

// The serial of the live session of that id, where it is the client's.
fn own_serial(sessions: &Sessions, client: &ClientName, id: &Text) -> Option<u64>
    ensures some { IfSome result (λ n. IsOwner sessions.now.live id.now client.now (Own n)) }
    ensures none { IfNone result ((s : Session)
        → session_with_id id.now sessions.now.live ≡ Some s → s.client ≢ client.now) }
{
    match sessions.owner(id) {
        Some((serial, owner)) => {
            if owner.equals(client) {
                Some(serial)
            } else {
                None
            }
        }
        None => None,
    }
}
