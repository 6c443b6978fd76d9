//! Small numbers that stand for keys: held, let go, and used again.
//!
//! A `Pool` gives each key that somebody holds a number of its own, counts the holds, and frees the
//! number with the last of them. Room for new keys is made beforehand, so that a hold cannot fail.
#![tactic(auto)]

mod places;
mod pools;
mod slots;

pub use pools::Pool;
