//! The core as a machine of a hall.
ghost use Rattle.std.specs.Prelude.{◌≡◌, ◌<◌, MatchResult};
ghost use Rattle.ifmap_dialogue.specs.Desks.{weight};
ghost use Rattle.ifmap_desks.specs.Holding.{would_hold};
ghost use Rattle.ifmap_dialogue.specs.ifmap_machine.State.{State, opening_state};
ghost use Rattle.ifmap_dialogue.specs.ifmap_machine.Step.{step};

use crate::events::FitEvent;
use crate::laws::holding_is_exact;
use ifmap_core::Core;
use ifmap_dialogue::{Answer, Event};
use ifmap_hall::Machine;
use ifmap_steps::Steps;
use std::alloc::{AllocError as NoMemory, Global};
use std::marker::Brand;
use std::sync::ledger::{Blank, Ledger};

/// A core that a book or a hall asks: its state, its steps and what it would hold are the core's.
#[derive(Drop)]
pub struct CoreMachine {
    /// The core.
    pub core: Core,
}

impl Machine for CoreMachine {
    type Event = FitEvent;

    type Reply = Answer;

    ghost weight_of = { λ event. weight event.event };

    ghost holds_on = { λ machine event. would_hold machine.core event.event };

    ghost next = { λ machine event. record { core = (step machine.core event.event).0 } };

    ghost reply = { λ machine event. (step machine.core event.event).1 };

    ghost some_state = { record { core = opening_state 1 } };

    fn weight(&self, event: &FitEvent) -> u64 {
        1000 + 8 * u64::from(event.event.bytes)
    }

    fn would_hold(&self, event: &FitEvent) -> bool {
        holding_is_exact();
        self.core.would_hold(&event.event)
    }

    fn step(&mut self, alloc: Global, event: &FitEvent) -> Result<Answer, NoMemory> {
        step_uncounted::<Brand>(&mut self.core, alloc, &event.event, Blank::new(1))
    }
}

// Steps the core, with a counter that nobody reads.
fn step_uncounted<L: Ledger>(
    core: &mut Core,
    alloc: Global,
    event: &Event,
    blank: Blank,
) -> Result<Answer, NoMemory>
    requires name { blank.name ≡ L.name }
    requires parts { blank.parts ≡ L.parts }
    requires some { 0 < blank.parts }
    ensures { MatchResult result
        (λ answer. (core.new ≡ (step core.old event.now).0)
        × (answer ≡ (step core.old event.now).1))
        (λ _. core.new ≡ core.old) }
{
    let mut steps: Steps<L> = Steps::from_blank(blank);
    core.step(alloc, event, &mut steps)
}
