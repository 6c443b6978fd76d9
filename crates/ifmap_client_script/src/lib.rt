//! A client's script over two links: its requests are sent and answered, its sets are printed.
#![tactic(auto)]

mod clients;
mod exchanges;
mod lines;
pub mod outcomes;
mod outlets;
mod printing;
mod requests;
pub mod scripts;
mod sending;

pub use outcomes::Outcome;
pub use scripts::run_script;
