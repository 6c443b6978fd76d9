//! All that the program `mapd` does: it answers a script, carries out a drill or serves, as its words
//! ask. `run` is the call that it makes.
#![tactic(auto)]

pub mod running;
mod usage;

pub use ifmap_drill::NoProgress;
pub use ifmap_server::replay;
pub use ifmap_serving::{Gate, Stand};
pub use running::{RunSetting, run};
