//! What tests of graphs and of what is found in them are made of. What searches find is tested by `tests/scripts`.
#![tactic(auto)]

pub mod places;
pub mod plain_search;
