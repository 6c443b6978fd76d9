//! Why no session begins.
use std::alloc::AllocError as NoMemory;
use thiserror::Error;

/// Why no session begins.
#[derive(Debug, Drop, Error)]
pub enum BeginError {
    /// 10,000 sessions are live.
    #[error("too many sessions")]
    TooMany,
    /// The serials are used up: the counter stands at 2^64 - 1, and fewer than 10,000 sessions are
    /// live.
    #[error("no serial is left")]
    Counted,
    /// Want of memory.
    #[error("out of memory")]
    NoMemory,
}
