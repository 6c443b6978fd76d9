//! What was taken from a source and is not used yet: one buffer for all that reads bytes piece by
//! piece.
#![tactic(auto)]

mod inputs;
mod scripts;

pub use inputs::{CHUNK, Input, InputError};
pub use scripts::LONGEST_SCRIPT;
