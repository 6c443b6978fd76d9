//! Subscriptions that stand.
ghost use Rattle.std.specs.Prelude.{◌≡◌};
ghost use Rattle.ifmap_machine.specs.State.{standing_order};
ghost use Rattle.ifmap_machine.specs.State as machine;
ghost use Rattle.ifmap_standing.specs.Standing.{standing_of};

use ifmap_delta::Subscription;
use ifmap_elem::Text;
use std::cmp::Ordering;

/// A subscription that stands: of which session, and under which name.
#[derive(Drop)]
pub struct Standing {
    /// The serial of the session.
    pub serial: u64,
    /// The name that the session gave it.
    pub name: Text,
    /// What it keeps of the graph.
    pub subscription: Subscription,
}

impl Standing {
    /// How it stands to the subscription of a session under a name: by session, then by name.
    pub fn order(&self, serial: u64, name: &Text) -> Ordering
        ensures { (other : machine.Standing) → other.serial ≡ serial → other.name ≡ name.now
            → result ≡ standing_order (standing_of self.now) other }
    {
        match self.serial.cmp(&serial) {
            Ordering::Equal => self.name.as_bytes().cmp(name.as_bytes()),
            unequal => unequal,
        }
    }
}
