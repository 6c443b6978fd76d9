//! What subscriptions are told, and what a client folds of it: differences of results, notified elements
//! that count, and the sets that a client keeps. Definitions, with the law that they fit together.
#![tactic(auto)]

pub mod laws;
