//! What a search finds and what a poll is told, as values with their sizes.
#![tactic(auto)]

pub mod results;
pub mod searches;
pub mod sizes;

pub use ifmap_filter::{Filter, meets_optional};
pub use results::{Entry, Found, PollItem, SearchError};
pub use searches::Search;
pub use sizes::{SIZE_BESIDE_ENTRIES, poll_size};
