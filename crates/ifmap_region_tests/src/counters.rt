//! A counter of steps is begun and ticks.
ghost use Rattle.std.specs.Prelude.{◌≡◌, ◌<◌};

use ifmap_steps::Steps;
use std::marker::Brand;
use std::sync::ledger::{Blank, Ledger};

fn tick_twice<L: Ledger>(blank: Blank)
    requires name { blank.name ≡ L.name }
    requires parts { blank.parts ≡ L.parts }
    requires some { 0 < blank.parts }
{
    let mut steps: Steps<L> = Steps::from_blank(blank);
    steps.tick();
    steps.tick();
}

#[test]
fn a_counter_begins_from_a_blank() {
    tick_twice::<Brand>(Blank::new(1));
}
