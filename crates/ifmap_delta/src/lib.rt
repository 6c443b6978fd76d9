//! Subscriptions: what one keeps, and the exact difference that a change of the graph makes to it.
#![tactic(auto)]

mod changing;
mod differing;
mod flips;
pub mod locating;
mod marks;
mod near;
mod noting;
mod pairing;
mod sides;
mod subscribing;
pub mod subscriptions;
mod touched;

pub use changing::change;
pub use ifmap_fresh::fresh;
pub use ifmap_fresh::laws::numbers_keep_walks;
pub use ifmap_plans::Plan;
pub use ifmap_search::{Entry, PollItem};
pub use locating::{Located, LocatedChange, LocatedPlan, locate_plan};
pub use noting::notes;
pub use subscribing::subscribe;
pub use subscriptions::{Moved, SubUndo, Subscribed, Subscription};
