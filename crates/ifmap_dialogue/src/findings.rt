//! What comes of posts.
use crate::polls::Poll;
use ifmap_machine::Reply;

/// What came of a post.
#[derive(Debug, Drop)]
pub enum Finding {
    /// A reply, which is not what a poll is told.
    Replied(Reply),
    /// What a poll is told, and the poll.
    Told(Reply, Poll),
    /// The body is no envelope.
    Unreadable,
    /// A poll was asked so often, and held each time.
    HeldOut { turns: u32 },
    /// The desk has no number left for the request. So many calls were made there.
    Spent { entries: u64 },
    /// Want of memory.
    NoMemory,
}
