//! The machine: it answers each event as its definition does, over an indexed graph.
#![tactic(auto)]

mod answering;
mod beginning;
mod completions;
mod empty_polls;
mod ending;
mod light;
pub mod machine;
mod owning;
mod subscribing;

pub use ifmap_subscribes::{
    Answer, Ask, Event, Parts, Reply, SESSION_SECONDS, Standing, clients_fold_fresh_results,
    write_reply,
};
pub use machine::Core;
