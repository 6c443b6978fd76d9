//! Connections served at a desk: posts are read from a wire, what they mean is asked at the desk, and
//! the answers are written, until the connection ends.
#![tactic(auto)]

mod consulting;
pub mod desks;
pub mod endings;
pub mod findings;
pub mod polls;
mod post_asks;
mod rounds;
mod sending;
mod serving;
mod settings;
mod words;

pub use desks::{AskOutcome, Desk, Gate};
pub use endings::Ending;
pub use findings::Finding;
pub use ifmap_machine::laws::{
    clients_fold_fresh_results, clients_fold_fresh_results_from_any_entry,
};
pub use ifmap_machine::{Answer, Ask, Event, Reply, Request, SESSION_SECONDS};
pub use polls::Poll;
pub use serving::serve_connection;
