//! Sessions: which are live, whose they are, what their queues may hold, when their last requests
//! came, and what a poll of each is to be told. It knows no graph and no subscription.
#![tactic(auto)]

mod errors;
mod holders;
mod ids;
mod last_moments;
mod limits;
mod openings;
mod queues;
mod rows;
mod sessions;

pub use errors::BeginError;
pub use ifmap_search::{PollItem, Search, SearchError};
pub use limits::limit_of;
pub use openings::{Begun, Opening};
pub use queues::named_size;
pub use sessions::{MOST_SESSIONS, Sessions};
