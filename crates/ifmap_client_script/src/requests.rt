//! Requests of a script as they are sent.
ghost use Rattle.std.specs.Prelude.{◌≡◌};
ghost use Rattle.ifmap_client_script.specs.Deeds.{is_poll, named_session, request_in};
ghost use Rattle.ifmap_client_script.specs.ScriptFailures.{IsNamedOrBadLine};

use crate::outcomes::ScriptFailure;
use ifmap_elem::{Copied, Text};
use ifmap_requests::Request;
use std::alloc::Global;

// What stands for the session that was begun last.
const LAST_SESSION: &str = "*";

/// The request as it is sent; `BadLine` where it names the session that was begun last and none was.
pub fn request_in(
    alloc: Global,
    begun: &Option<Text>,
    request: Request,
) -> Result<Request, ScriptFailure>
    ensures { IsNamedOrBadLine (request_in begun.now request) result }
{
    match request {
        Request::NewSession { limit } => Ok(Request::NewSession { limit }),
        Request::RenewSession { session } => Ok(Request::RenewSession {
            session: named_session(alloc, begun, session)?,
        }),
        Request::EndSession { session } => Ok(Request::EndSession {
            session: named_session(alloc, begun, session)?,
        }),
        Request::Publish { session, ops } => Ok(Request::Publish {
            session: named_session(alloc, begun, session)?,
            ops,
        }),
        Request::Search { session, search } => Ok(Request::Search {
            session: named_session(alloc, begun, session)?,
            search,
        }),
        Request::Subscribe { session, ops } => Ok(Request::Subscribe {
            session: named_session(alloc, begun, session)?,
            ops,
        }),
        Request::Poll { session } => Ok(Request::Poll {
            session: named_session(alloc, begun, session)?,
        }),
        Request::PurgePublisher { session, publisher } => Ok(Request::PurgePublisher {
            session: named_session(alloc, begun, session)?,
            publisher,
        }),
    }
}

// The session that a text names.
fn named_session(alloc: Global, begun: &Option<Text>, text: Text) -> Result<Text, ScriptFailure>
    ensures { IsNamedOrBadLine (named_session begun.now text) result }
{
    if text.as_str() != LAST_SESSION {
        return Ok(text);
    }
    match begun {
        Some(session) => Ok(session.copy(alloc)?),
        None => Err(ScriptFailure::BadLine),
    }
}

/// The request is a poll, which goes over a link of its own.
pub fn is_poll(request: &Request) -> bool
    ensures { result ≡ is_poll request.now }
{
    matches!(request, Request::Poll { .. })
}
