//! Subscriptions that stand: what all of them are told of one change of the graph, with the way back.
#![tactic(auto)]

pub mod laws;
pub mod standing;
pub mod tell_changes;
pub mod telling;
pub mod ways;

pub use ifmap_delta::{Subscribed, Subscription, fresh, numbers_keep_walks, subscribe};
pub use ifmap_machine::laws::clients_fold_fresh_results;
pub use ifmap_machine::{
    Answer, Ask, Author, Event, PublishOp, Reply, Request, SESSION_SECONDS, Sessions, SubscribeOp,
    Who, named_size, plan, publishing_keeps_graphs, retract, retracting_keeps_graphs, write_reply,
};
pub use standing::Standing;
pub use tell_changes::{NewsAndWays, tell_change};
pub use telling::{GraphChange, News};
pub use ways::{Ways, settle, take_change_back};
