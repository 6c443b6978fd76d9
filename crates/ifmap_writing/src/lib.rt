//! Requests as a client writes them: the element of a request, and the bytes of its envelope.
#![tactic(auto)]

mod attributes;
mod children;
pub mod laws;
mod operations;
mod spaces;
pub mod writing;

pub use writing::{request_element, write_request};
