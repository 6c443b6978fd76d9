//! The drill: a load of made events that everybody can repeat, run by the machine and summed up.
//! `drill` is the call that the program makes.
#![tactic(auto)]

mod bodies;
pub mod drill_counts;
mod drills;
mod events;
pub mod laws;
pub mod parts;
pub mod progress;
mod requests;
mod running;
mod summaries;
pub mod tasks;

pub use progress::{NoProgress, Progress};
pub use running::drill;
