//! What clients ask.
use crate::publish_ops::PublishOp;
use ifmap_elem::{Copied, Many, Text};
use ifmap_search::Search;
use std::alloc::{AllocError as NoMemory, Global};

/// One operation of a subscribe.
#[derive(Debug, Drop)]
pub enum SubscribeOp {
    /// A subscription of this name to a search, in place of the one that has the name.
    Update { name: Text, search: Search },
    /// The subscription of this name ends.
    Delete { name: Text },
}

impl Copied for SubscribeOp {
    fn copy(&self, alloc: Global) -> Result<Self, NoMemory> {
        match self {
            SubscribeOp::Update { name, search } => Ok(SubscribeOp::Update {
                name: name.copy(alloc)?,
                search: search.copy(alloc)?,
            }),
            SubscribeOp::Delete { name } => Ok(SubscribeOp::Delete {
                name: name.copy(alloc)?,
            }),
        }
    }
}

/// What a client asks.
#[derive(Debug, Drop)]
pub enum Request {
    /// A new session, in place of the one that the client has; how large a poll's result may be.
    NewSession {
        limit: Option<u32>,
    },
    /// A sign of life of a session.
    RenewSession {
        session: Text,
    },
    /// The end of a session.
    EndSession {
        session: Text,
    },
    /// Changes of what is published, one after another.
    Publish {
        session: Text,
        ops: Many<PublishOp>,
    },
    /// What is published around an identifier.
    Search {
        session: Text,
        search: Search,
    },
    /// Changes of what the session is told of.
    Subscribe {
        session: Text,
        ops: Many<SubscribeOp>,
    },
    /// What there is to tell.
    Poll {
        session: Text,
    },
    /// The end of all that a publisher published.
    PurgePublisher {
        session: Text,
        publisher: Text,
    },
}

impl Copied for Request {
    fn copy(&self, alloc: Global) -> Result<Self, NoMemory> {
        match self {
            Request::NewSession { limit } => Ok(Request::NewSession { limit: *limit }),
            Request::RenewSession { session } => Ok(Request::RenewSession {
                session: session.copy(alloc)?,
            }),
            Request::EndSession { session } => Ok(Request::EndSession {
                session: session.copy(alloc)?,
            }),
            Request::Publish { session, ops } => Ok(Request::Publish {
                session: session.copy(alloc)?,
                ops: ops.copy(alloc)?,
            }),
            Request::Search { session, search } => Ok(Request::Search {
                session: session.copy(alloc)?,
                search: search.copy(alloc)?,
            }),
            Request::Subscribe { session, ops } => Ok(Request::Subscribe {
                session: session.copy(alloc)?,
                ops: ops.copy(alloc)?,
            }),
            Request::Poll { session } => Ok(Request::Poll {
                session: session.copy(alloc)?,
            }),
            Request::PurgePublisher { session, publisher } => Ok(Request::PurgePublisher {
                session: session.copy(alloc)?,
                publisher: publisher.copy(alloc)?,
            }),
        }
    }
}
