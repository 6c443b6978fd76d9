//! How connections end.

/// How a connection ended.
#[derive(Clone, Copy, Debug, PartialEq, Eq)]
pub enum Ending {
    /// The link gave end of input before a post.
    Ended,
    /// It gave end of input inside a post.
    Truncated,
    /// An answer with status 200 was written to a post that asked for closing, or to the last one
    /// that a connection takes.
    Closed,
    /// A post had this status, which was answered.
    Refused(u16),
    /// The link's reading failed, and its count of reading rose.
    ReadFault,
    /// The link's writing failed, and its count of writing rose: a prefix of the answer was written.
    WriteFault,
    /// A poll was asked so often, and held each time. Nothing was answered.
    HeldOut { turns: u32 },
    /// The desk had no number left for hearing that the answer to a poll was lost. So many calls were
    /// made there.
    Unheard { entries: u64 },
    /// The desk had no number left for a request. So many calls were made there.
    Spent { entries: u64 },
    /// Want of memory.
    NoMemory,
}
