//! Answers of a book as a desk hands them on, and how many there were.
ghost use Rattle.std.specs.Prelude.{◌≡◌};
ghost use Rattle.ifmap_desks.specs.Answers.{plain_answer, CountsAnswer};

use crate::events::FitEvent;
use ifmap_dialogue::{Answer, Event};
use ifmap_hall::Asked;

// How many answers were `Held`, and how many `Spent`. A count that is at its last value stays there.
#[derive(Drop)]
pub(crate) struct AnswerCounts {
    pub held: u64,
    pub spent: u64,
}

impl AnswerCounts {
    // No answer yet.
    pub(crate) fn new() -> AnswerCounts
        ensures held { result.held ≡ 0 }
        ensures spent { result.spent ≡ 0 }
    {
        AnswerCounts { held: 0, spent: 0 }
    }

    // Each count stands still at the greatest of its type.
    pub(crate) fn count(&mut self, answer: &Asked<Event, Answer>)
        ensures { CountsAnswer answer.now self.old self.new }
    {
        match answer {
            Asked::Done { .. } => {}
            Asked::Held { .. } => self.held = self.held.saturating_add(1),
            Asked::Spent { .. } => self.spent = self.spent.saturating_add(1),
            Asked::NoMemory { .. } => {}
        }
    }
}

// The answer with the event as it was asked.
pub(crate) fn plain_answer(asked: Asked<FitEvent, Answer>) -> Asked<Event, Answer>
    ensures { result ≡ plain_answer asked }
{
    match asked {
        Asked::Done { place, reply } => Asked::Done { place, reply },
        Asked::Held { place, event } => Asked::Held {
            place,
            event: event.event,
        },
        Asked::Spent { entries, event } => Asked::Spent {
            entries,
            event: event.event,
        },
        Asked::NoMemory { event } => Asked::NoMemory { event: event.event },
    }
}
