//! The book of a machine: a base, and the entries since.
ghost use Rattle.std.specs.Prelude.{◌≡◌, ◌≢◌, ℕ, ◌+◌, ◌-◌, ◌*◌, ◌^◌, ◌<◌, ◌≤◌};
ghost use Rattle.std.specs.Prelude.{List, [], ◌∷◌, ◌++◌, true, false, length, take, drop, OnOk};
ghost use Rattle.ifmap_hall.specs.Answers.{IfDone, IfHeld, IfSpent, IfNoMemory};
ghost use Rattle.ifmap_hall.specs.Books.{sight_of, end_of_book, IsBook};
ghost use Rattle.ifmap_hall.specs.Sights.{CarriesOn};
ghost use Rattle.ifmap_hall.specs.Turns.{Settles, SameLimits, HadToGo, Enters};

use crate::machine::Machine;
use std::alloc::{AllocError as NoMemory, Global};
use std::collections::VecDeque;

/// What a book answers.
#[derive(Drop)]
pub enum Asked<E, R> {
    /// The event is the entry at this place, and this is the machine's reply there.
    Done { place: u64, reply: R },
    /// No entry was made: the machine would only wait on the event. The place is that of the next
    /// entry.
    Held { place: u64, event: E },
    /// No entry can be made any more, since there is no number left for its place. So many entries
    /// were made.
    Spent { entries: u64, event: E },
    /// Want of memory. No entry was made.
    NoMemory { event: E },
}

/// A machine with what it was asked. The journal has the newest entries, each the number of a pass
/// and an event; the base is the machine as it was before them.
#[derive(Drop)]
pub struct Book<M: Machine> {
    /// The machine as it was before the entries of the journal.
    pub base: M,
    /// The machine as it is after them.
    pub machine: M,
    /// How many entries were made before those of the journal.
    pub from: u64,
    /// The newest entries, the oldest first.
    pub journal: VecDeque<(u64, M::Event)>,
    /// The weight of the journal's entries, in bytes.
    pub bytes: u64,
    /// What this weight may be at most.
    pub limit: u64,
    /// What one event may weigh at most, in bytes; the limit is at least twice this.
    pub heaviest: u64,
}

impl<M: Machine> Book<M>
where
    M::Event: Drop,
    M::Reply: Drop,
{
    /// The place of the next entry, which is how many were made.
    pub fn end(&self) -> u64
        requires { IsBook M.next M.weight_of self.now }
        ensures { result ≡ end_of_book self.now }
    {
        self.from + self.journal.len() as u64
    }

    // The base takes in the oldest entry.
    fn settle_oldest(&mut self, alloc: Global) -> Result<(), NoMemory>
        requires book { IsBook M.next M.weight_of self.old }
        requires some { 0 < length self.old.journal.items }
        requires heavy { self.old.limit < self.old.bytes + self.old.heaviest }
        ensures settles { Settles M.next M.weight_of self.old self.new }
        ensures one { OnOk result
            (length self.new.journal.items + 1 ≡ length self.old.journal.items) }
        ensures few { (heavy : ℕ) → self.old.limit < self.old.bytes + heavy
            → HadToGo M.weight_of self.old self.new heavy }
    {
        let Some(oldest) = self.journal.front() else {
            unreachable!();
        };
        let weight = self.machine.weight(&oldest.1);
        let _reply = self.base.step(alloc, &oldest.1)?;
        let _gone = self.journal.pop_front();
        self.from += 1;
        self.bytes -= weight;
        Ok(())
    }

    // The base takes in as few of the oldest entries as make room for this weight.
    fn make_room(&mut self, alloc: Global, weight: u64) -> Result<(), NoMemory>
        requires book { IsBook M.next M.weight_of self.old }
        requires light { weight ≤ self.old.heaviest }
        ensures settles { Settles M.next M.weight_of self.old self.new }
        ensures room { OnOk result (self.new.bytes + weight ≤ self.new.limit) }
        ensures few { HadToGo M.weight_of self.old self.new weight }
    {
        while self.bytes > self.limit - weight {
            self.settle_oldest(alloc)?;
        }
        Ok(())
    }

    // Steps the event and writes it down.
    fn write(
        &mut self,
        alloc: Global,
        pass: u64,
        event: M::Event,
        weight: u64,
    ) -> Asked<M::Event, M::Reply>
        requires book { IsBook M.next M.weight_of self.old }
        requires weight { (weight ≡ M.weight_of event) × (weight ≤ self.old.heaviest) }
        requires room { self.old.bytes + weight ≤ self.old.limit }
        requires free { end_of_book self.old < 2 ^ 64 - 1 }
        ensures book { IsBook M.next M.weight_of self.new }
        ensures carries { CarriesOn M.next (sight_of self.old) (sight_of self.new) }
        ensures limits { SameLimits self.old self.new }
        ensures from { self.new.from ≡ self.old.from }
        ensures done { IfDone result (λ place reply.
            Enters M.reply self.old self.new pass event place reply) }
        ensures held { IfHeld result (λ _ _. ⊥) }
        ensures spent { IfSpent result (λ _ _. ⊥) }
        ensures no_memory { IfNoMemory result (λ back.
            (back ≡ event) × Settles M.next M.weight_of self.old self.new) }
    {
        let place = self.end();
        if self.journal.reserve(1).is_err() {
            return Asked::NoMemory { event };
        }
        match self.machine.step(alloc, &event) {
            Ok(reply) => {
                self.journal.push_back_reserved((pass, event));
                self.bytes += weight;
                Asked::Done { place, reply }
            }
            Err(_) => Asked::NoMemory { event },
        }
    }

    /// Asks the machine under the number of a pass. `Spent` comes exactly where the book's end is
    /// 2^64 - 1; otherwise `Held` comes exactly where the machine would hold on the event, and both
    /// leave the book as it was. Otherwise the base takes in the oldest entries, as few as make
    /// room, and the event is stepped and becomes the last entry. At `NoMemory` the machine and the
    /// end are as they were, and the base may have taken in entries. What the book has seen goes on
    /// from what it had seen in each case.
    pub fn turn(&mut self, alloc: Global, pass: u64, event: M::Event) -> Asked<M::Event, M::Reply>
        requires book { IsBook M.next M.weight_of self.old }
        requires light { M.weight_of event ≤ self.old.heaviest }
        ensures book { IsBook M.next M.weight_of self.new }
        ensures carries { CarriesOn M.next (sight_of self.old) (sight_of self.new) }
        ensures limits { SameLimits self.old self.new }
        ensures few { HadToGo M.weight_of self.old self.new (M.weight_of event) }
        ensures done { IfDone result (λ place reply.
            (place < 2 ^ 64 - 1) × (M.holds_on self.old.machine event ≡ false)
            × Enters M.reply self.old self.new pass event place reply) }
        ensures held { IfHeld result (λ place back.
            (place ≡ end_of_book self.old) × (place < 2 ^ 64 - 1)
            × (M.holds_on self.old.machine event ≡ true) × (back ≡ event) × (self.new ≡ self.old)) }
        ensures spent { IfSpent result (λ entries back.
            (entries ≡ end_of_book self.old) × (entries ≡ 2 ^ 64 - 1)
            × (back ≡ event) × (self.new ≡ self.old)) }
        ensures no_memory { IfNoMemory result (λ back.
            (back ≡ event) × (end_of_book self.old < 2 ^ 64 - 1)
            × (M.holds_on self.old.machine event ≡ false)
            × Settles M.next M.weight_of self.old self.new) }
    {
        let end = self.end();
        if end == u64::MAX {
            return Asked::Spent {
                entries: end,
                event,
            };
        }
        if self.machine.would_hold(&event) {
            return Asked::Held { place: end, event };
        }
        let weight = self.machine.weight(&event);
        if self.make_room(alloc, weight).is_err() {
            return Asked::NoMemory { event };
        }
        self.write(alloc, pass, event, weight)
    }
}
