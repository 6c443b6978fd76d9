//! HTTP over any link: a wire reads posts and writes answers, as a server does, and writes posts and
//! reads answers, as a client does.
#![tactic(auto)]

mod bodies;
mod dues;
mod heads;
mod wires;

pub use wires::{Answered, Got, Post, Sent, Wire};
