//! Desks, at which events are asked, and gates, which are passed on the way.
ghost use Rattle.std.specs.Prelude.{◌≤◌, ◌∷◌, []};
ghost use Rattle.ifmap_dialogue.specs.Desks.{DeskSeen, DeskTakesTurns, greatest_weight, weight};

use ifmap_hall::Asked;
use ifmap_machine::{Answer, Event, Reply};

/// Where events are asked, one after another.
pub trait Desk {
    /// What the desk stands in.
    type Home;

    /// The calls that were done, where they are told; how many turns it took, where it counts them:
    /// one for each ask; how many of its answers were `Held`, and how many `Spent`; and, which no
    /// call changes, what it stands in and the name of what it borrows.
    ghost seen: { Self → DeskSeen Self.Home };

    /// Asks an event of at most 80,001,000 bytes of weight. Every answer but `Done` hands the event
    /// back. What is held is a poll, and what a poll is told is told to a poll alone; `Heard`
    /// answers the event that tells of a lost answer, and nothing else.
    fn ask(&mut self, event: Event) -> Asked<Event, Answer>
        requires light { weight event ≤ greatest_weight }
        ensures tells { DeskTakesTurns (seen self.old) (seen self.new)
            (record { event = event; asked = result } ∷ []) };
}

/// What is passed before each ask, and after each answer that was written whole.
pub trait Gate {
    /// Passes the point of this number. Nothing is claimed of how long that takes.
    fn pass(&mut self, point: u32);
}

/// The point before an ask.
pub const BEFORE_ASK: u32 = 1;

/// The point after an answer.
pub const AFTER_ANSWER: u32 = 2;

/// How a turn at a desk went.
#[derive(Debug, Drop)]
pub enum AskOutcome {
    /// The machine replied.
    Replied(Reply),
    /// It heard that an answer was lost.
    Heard,
    /// There is nothing to tell yet.
    Held,
    /// The desk has no number left for another call. So many were made.
    Spent { entries: u64 },
    /// Want of memory.
    NoMemory,
}
