//! Stands: what one worker needs.
ghost use Rattle.std.specs.Prelude.{◌≡◌, None};

use ifmap_desks::CoreMachine;
use ifmap_hall::Pass;

/// What one worker needs, and what it leaves.
#[derive(Drop)]
pub struct Stand<D, G> {
    /// Where its connections come from.
    pub door: D,
    /// What is passed before each ask, and after each answer that was written whole.
    pub gate: G,
    /// The pass by which it asks the hall of all workers, once there is one.
    pub pass: Option<Pass<CoreMachine>>,
    /// Its place among the stands, counted from 0.
    pub place: u32,
    /// What its work came to: 0 where the door had no link left, 7 where the door failed.
    pub status: u8,
}

impl<D, G> Stand<D, G> {
    /// A stand that was not served yet. It takes no memory.
    pub fn new(door: D, gate: G) -> Stand<D, G>
        ensures { result
            ≡ record { door = door; gate = gate; pass = None; place = 0; status = 0 } }
    {
        Stand {
            door,
            gate,
            pass: None,
            place: 0,
            status: 0,
        }
    }
}
