//! Where the links are looked up.
ghost use Rattle.std.specs.Prelude.{◌≡◌, ◌+◌, ◌<◌};
ghost use Rattle.ifmap_region.specs.Links.{GraphSeen};

use ifmap_steps::Steps;
use std::sync::ledger::Ledger;

/// The links of each number, by their places.
pub trait LinkSource {
    /// How many links each number has, those that do not match among them; the other end of its
    /// link at a place, where that link matches; and whether no walk goes on from it.
    ghost seen: { Self → GraphSeen };

    /// How many links the number has, those that do not match among them.
    fn count(&self, number: u64) -> u64
        ensures { result ≡ (seen self.now).count number };

    /// The other end of the number's link at place `i`; `None` where that link does not match.
    /// Each call is one step.
    fn at<L: Ledger>(&self, number: u64, i: u64, steps: &mut Steps<L>) -> Option<u64>
        requires { i < (seen self.now).count number }
        ensures link { result ≡ (seen self.now).link number i }
        ensures step { steps.new ≡ steps.old + 1 };

    /// Whether no walk goes on from the number.
    fn is_terminal(&self, number: u64) -> bool
        ensures { result ≡ (seen self.now).terminal number };
}
