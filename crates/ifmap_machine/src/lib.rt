//! What the machine is: its events and answers, its state, and the answer to each event. The definitions
//! are plain, over lists; `laws` says what holds of all their histories. Whoever is the machine keeps
//! less than these lists, and answers by them.
#![tactic(auto)]

pub mod events;
mod expiry;
pub mod laws;

pub use events::{Answer, Ask, Event};
pub use expiry::SESSION_SECONDS;
pub use ifmap_publish::laws::{publishing_keeps_graphs, retracting_keeps_graphs};
pub use ifmap_publish::{
    Author, PublishOp, Refusal, Request, SubscribeOp, Who, bodies_mean_fit_requests, plan,
    read_request, retract,
};
pub use ifmap_replies::{Reply, write_reply};
pub use ifmap_session::{Sessions, named_size};
