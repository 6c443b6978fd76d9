//! Answers scripts of requests by the machine, from bytes in to bytes out.
#![tactic(auto)]

mod errors;
mod headers;
mod laws;
mod replaying;
mod replies;
mod running;
mod sending;
mod waiting;

pub use laws::{bytes_are_one_script, bytes_have_some_output};
pub use running::replay;
