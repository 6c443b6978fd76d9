//! Replies as values: as elements and as the bytes that are sent, and read back from any spelling.
#![tactic(auto)]

mod entry_lists;
pub mod errors;
mod kinds;
pub mod laws;
mod members;
mod notes;
mod polls;
pub mod reading;
pub mod replies;
mod responses;
mod results;
mod runs;
mod values;
pub mod writing;

pub use errors::ReplyError;
pub use reading::{read_reply, reply_of};
pub use replies::Reply;
pub use writing::{element_of, write_reply};
