//! What a client keeps of its subscriptions, folded from what its polls were told, and the lines of its
//! script.
#![tactic(auto)]

pub mod client_sets;
mod entry_sets;
pub mod laws;
pub mod lines;

pub use client_sets::ClientSets;
pub use lines::{LINE_LIMIT, Line, line_of};
