//! Publishing: what a list of operations makes of a graph, and what is left of it when sessions end or a
//! publisher is purged. Both are told as plans, and no graph is changed here.
#![tactic(auto)]

mod applying;
pub mod authors;
mod differences;
mod edits;
pub mod laws;
mod notes;
pub mod publishing;
pub mod retracting;
pub mod who;
mod working;

pub use authors::Author;
pub use ifmap_requests::laws::bodies_mean_fit_requests;
pub use ifmap_requests::{PublishOp, Refusal, Request, SubscribeOp, read_request};
pub use publishing::plan;
pub use retracting::retract;
pub use who::Who;
