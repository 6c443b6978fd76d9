//! The workers of a running server: the connections of a door, served one after another, and the
//! doors of many stands, served beside each other over one hall.
#![tactic(auto)]

mod serving;
mod stands;
mod working;

pub use ifmap_desks::{AFTER_ANSWER, Gate};
pub use serving::serve;
pub use stands::Stand;
pub use working::work;
