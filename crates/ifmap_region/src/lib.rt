//! Which numbers a bounded walk along links reaches, and by how many links.
#![tactic(auto)]

mod bases;
mod cut;
mod flips;
mod grow;
mod levels;
mod link_source;
mod lose;
mod mid;
mod patch;
mod region;
mod repairing;
mod rows;
mod seeds;
mod spread;
mod ways;

pub use flips::Flip;
pub use link_source::LinkSource;
pub use patch::{MarkChange, Patch, PatchedMark, RegionUndo};
pub use region::{Region, build};
pub use repairing::repair;
