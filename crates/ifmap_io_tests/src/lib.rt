//! Tests of the outside's traits and their objects: calls that fail in mid-stream, the system's own ends,
//! and that the objects cross threads.
#![tactic(auto)]

#[cfg(test)]
mod tests;
