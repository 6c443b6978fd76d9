//! What clients are answered.
use ifmap_elem::{Copied, Many, Text};
use ifmap_ident::Code;
use ifmap_search::{Entry, PollItem};
use std::alloc::{AllocError as NoMemory, Global};

/// What a client is answered.
#[derive(Debug, Drop)]
pub enum Reply {
    /// A session began.
    NewSession {
        /// The id of the session, by which the client names it from then on.
        session: Text,
        /// The client's name, as the id of the publisher that it is.
        publisher: Text,
        /// How large the result of a poll may be, in bytes as `poll_size` counts them.
        limit: u32,
    },
    /// The session lives on.
    Renewed,
    /// The session ended.
    Ended,
    /// What was asked is published.
    Published,
    /// The subscriptions are as was asked.
    Subscribed,
    /// Nothing is left that the publisher published.
    Purged,
    /// What a search found, in the order in which it is told; nothing is no error.
    Found(Many<Entry>),
    /// What a poll is told, the oldest first.
    Polled(Many<PollItem>),
    /// The request was refused.
    Error {
        /// Why.
        code: Code,
        /// A note for a reader. For the codes of results that are too big it is the size and its limit.
        note: Text,
    },
}

impl Copied for Reply {
    fn copy(&self, alloc: Global) -> Result<Self, NoMemory> {
        match self {
            Reply::NewSession {
                session,
                publisher,
                limit,
            } => Ok(Reply::NewSession {
                session: session.copy(alloc)?,
                publisher: publisher.copy(alloc)?,
                limit: *limit,
            }),
            Reply::Renewed => Ok(Reply::Renewed),
            Reply::Ended => Ok(Reply::Ended),
            Reply::Published => Ok(Reply::Published),
            Reply::Subscribed => Ok(Reply::Subscribed),
            Reply::Purged => Ok(Reply::Purged),
            Reply::Found(entries) => Ok(Reply::Found(entries.copy(alloc)?)),
            Reply::Polled(items) => Ok(Reply::Polled(items.copy(alloc)?)),
            Reply::Error { code, note } => Ok(Reply::Error {
                code: *code,
                note: note.copy(alloc)?,
            }),
        }
    }
}
