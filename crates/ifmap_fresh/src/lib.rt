//! The search: what walks from an identifier reach, and what stands there.
#![tactic(auto)]

mod collecting;
mod finding;
mod items;
mod kinds;
pub mod laws;
mod links;
mod matching;

pub use finding::fresh;
pub use items::{add_alone, pair_at};
pub use links::LinksOf;
pub use matching::one_meets;
