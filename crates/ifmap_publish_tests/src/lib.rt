//! What tests of publishes make them of. What publishes and retractions change is tested by `tests/scripts`.
#![tactic(auto)]

pub mod dice;
pub mod publishes;
pub mod reading;
