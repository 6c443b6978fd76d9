//! A desk of plain values, which answers as it was told before, and keeps what it was asked.
ghost use Rattle.std.specs.Prelude.{◌≡◌};
ghost use Rattle.ifmap_dialogue.specs.Desks.{FitsAnswer};
ghost use Rattle.ifmap_program_tests.specs.Kinds.{IsKind};

use ifmap_dialogue::{Answer, Ask, Desk, Event, Gate, Reply, Request};
use ifmap_elem::Many;
use ifmap_hall::Asked;
use std::alloc::{AllocError as NoMemory, Global};

/// What was asked.
#[derive(Clone, Copy, Debug, PartialEq, Eq)]
pub enum EventKind {
    Poll,
    Other,
    Lost,
}

/// What an ask comes to.
#[derive(Clone, Copy, Debug, PartialEq, Eq)]
pub enum Plan {
    /// It is held back; a request that is no poll is answered.
    Held,
    /// It is done, and held; a request that is no poll is answered.
    StillHeld,
    /// A poll is told an empty list; another request is answered.
    Told,
    /// It is answered.
    Answered,
    /// There is no number left.
    Spent,
    /// Want of memory.
    NoMemory,
}

/// One ask, as it was kept.
#[derive(Clone, Copy, Debug, PartialEq, Eq)]
pub struct Noted {
    pub kind: EventKind,
    pub again: bool,
    pub moment: u64,
    pub random: u128,
    pub bytes: u32,
}

/// The desk. Polls come to its plans one after another, the last of which stays; other requests come to
/// the plan `others`, and lost answers to `lost`.
#[derive(Drop)]
pub struct PlainDesk {
    pub alloc: Global,
    pub polls: Vec<Plan>,
    pub others: Plan,
    pub lost: Plan,
    pub noted: Vec<Noted>,
    /// How often it was told of a lost answer in the session `s`.
    pub lost_in_s: u64,
    next: usize,
    held: u64,
    spent: u64,
}

impl PlainDesk {
    /// A desk of these plans, which was asked nothing.
    pub fn new(alloc: Global, polls: Vec<Plan>, others: Plan, lost: Plan) -> PlainDesk {
        PlainDesk {
            alloc,
            polls,
            others,
            lost,
            noted: Vec::new(alloc),
            lost_in_s: 0,
            next: 0,
            held: 0,
            spent: 0,
        }
    }

    // Keeps what was asked.
    fn note(&mut self, event: &Event, kind: EventKind) -> Result<(), NoMemory>
        ensures held { self.new.held ≡ self.old.held }
        ensures spent { self.new.spent ≡ self.old.spent }
    {
        if is_lost_in_s(&event.ask) {
            self.lost_in_s = self.lost_in_s.saturating_add(1);
        }
        self.noted.push(Noted {
            kind,
            again: event.again,
            moment: event.moment.seconds(),
            random: event.random,
            bytes: event.bytes,
        })?;
        Ok(())
    }

    // The plan for an ask of this kind.
    fn plan_for(&mut self, kind: EventKind) -> Plan
        ensures held { self.new.held ≡ self.old.held }
        ensures spent { self.new.spent ≡ self.old.spent }
    {
        match kind {
            EventKind::Other => self.others,
            EventKind::Lost => self.lost,
            EventKind::Poll => {
                let last = self.polls.len().saturating_sub(1);
                let place = self.next.min(last);
                self.next = self.next.saturating_add(1);
                self.polls.get(place).copied().unwrap_or(Plan::Answered)
            }
        }
    }
}

fn is_lost_in_s(ask: &Ask) -> bool {
    match ask {
        Ask::Lost(session) => session.as_str() == "s",
        Ask::Request(_) => false,
    }
}

// What is asked.
fn kind_of(ask: &Ask) -> EventKind
    ensures { IsKind ask.now result }
{
    match ask {
        Ask::Lost(_) => EventKind::Lost,
        Ask::Request(Request::Poll { .. }) => EventKind::Poll,
        Ask::Request(_) => EventKind::Other,
    }
}

impl Desk for PlainDesk {
    ghost use Rattle.std.specs.Prelude.{None};

    type Home = ();

    ghost seen = { λ desk. record {
      said = None;
      turns = None;
      held = desk.held;
      spent = desk.spent;
      home = tt;
      loan = 0;
    } };

    fn ask(&mut self, event: Event) -> Asked<Event, Answer> {
        let kind = kind_of(&event.ask);
        if self.note(&event, kind).is_err() {
            return Asked::NoMemory { event };
        }
        let plan = self.plan_for(kind);
        if plan == Plan::Spent {
            self.spent = self.spent.saturating_add(1);
            return Asked::Spent { entries: 7, event };
        }
        if plan == Plan::NoMemory {
            return Asked::NoMemory { event };
        }
        if kind == EventKind::Poll && plan == Plan::Held {
            self.held = self.held.saturating_add(1);
            return Asked::Held { place: 0, event };
        }
        let reply = answer_by(self.alloc, plan, kind, &event);
        Asked::Done { place: 0, reply }
    }
}

// The answer to an ask of that kind by a plan.
fn answer_by(alloc: Global, plan: Plan, kind: EventKind, event: &Event) -> Answer
    requires { IsKind event.now.ask kind }
    ensures { FitsAnswer event.now result }
{
    match kind {
        EventKind::Lost => Answer::Heard,
        EventKind::Other => Answer::Reply(Reply::Renewed),
        EventKind::Poll => match plan {
            Plan::StillHeld => Answer::Held,
            Plan::Told => Answer::Reply(Reply::Polled(Many(Vec::new(alloc)))),
            _ => Answer::Reply(Reply::Renewed),
        },
    }
}

/// A gate that counts how often its points are passed.
#[derive(Drop)]
pub struct CountingGate {
    pub asks: u64,
    pub answers: u64,
}

impl Gate for CountingGate {
    fn pass(&mut self, point: u32) {
        if point == 1 {
            self.asks = self.asks.saturating_add(1);
        } else {
            self.answers = self.answers.saturating_add(1);
        }
    }
}
