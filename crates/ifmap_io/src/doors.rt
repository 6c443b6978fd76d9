//! Doors: where links come from, and where they go back to.
ghost use Rattle.std.specs.Prelude.{◌≡◌, ◌-◌, ◌<◌, ◌↔◌, ◌++◌, ◌∷◌, ℕ, Option, Some, [], IfOk, IsNone, MatchResult, is_some, option_to_list};
ghost use Rattle.std.specs.VecDeque.{deque_len};
ghost use Rattle.ifmap_io.specs.Causes.{HasCause, count_after_one};
ghost use Rattle.ifmap_io.specs.Doors.{Doorway, Accepts, TakesBack};
ghost use Rattle.ifmap_io.specs.Links.{wire_link_seen};
ghost use Rattle.ifmap_io.specs.Memory.{porch_seen, FailsAsListed, faults_after};

use crate::ends::Failed;
use crate::links::{Link, MemoryLink};
use crate::memory::begin_call;
use std::alloc::{AllocError as NoMemory, Global};
use std::collections::VecDeque;
use std::marker::Model;

/// Where links come from.
pub trait Door {
    /// Its links, which can cross threads, so that a door can serve in one.
    type Wire: Link + Send;

    /// The links that it has left, those that came back, and its room for more of these, where they
    /// are told.
    ghost links: { Self → Option Doorway };

    /// How often `accept` has failed.
    ghost faults: { Self → ℕ };

    /// The first link that is left, or None where none is. A call that fails changes nothing else.
    fn accept(&mut self) -> Result<Option<Self::Wire>, Failed>
        ensures links { Accepts
            (wire_link_seen Self.Wire.left Self.Wire.held Self.Wire.Source.faults
            Self.Wire.Sink.faults)
            (links self.old) (links self.new) result }
        ensures told { is_some (links self.new) ≡ is_some (links self.old) }
        ensures cause { HasCause (faults self.old) (faults self.new) result };

    /// Takes a link back after its connection: last among those that came back where there is room,
    /// and else it is dropped.
    fn ended(&mut self, link: Self::Wire)
        ensures links { TakesBack (links self.old) (links self.new)
            (wire_link_seen Self.Wire.left Self.Wire.held Self.Wire.Source.faults
            Self.Wire.Sink.faults link) }
        ensures told { is_some (links self.new) ≡ is_some (links self.old) }
        ensures faults { faults self.new ≡ faults self.old };
}

/// A door over links in memory. It tells its links.
#[derive(Drop)]
pub struct MemoryDoor {
    links: VecDeque<MemoryLink>,
    back: Vec<MemoryLink>,
    room: usize,
    fails: Vec<u64>,
    calls: u64,
    faults: u64,
}

impl Model for MemoryDoor {
    ghost use Rattle.std.specs.Prelude.{◌+◌, ◌≤◌, vec_len, vec_capacity};
    ghost use Rattle.ifmap_io.specs.Memory.{Porch};

    ghost Value = { Porch };

    ghost view = { λ d. record {
      left = d.links.items;
      back = d.back.items;
      room = d.room;
      fails = d.fails.items;
      calls = d.calls;
      faults = d.faults;
    } };

    ghost invariant = { λ d. vec_len d.back + d.room ≤ vec_capacity d.back };
}

impl MemoryDoor {
    /// A door that has `links`, and room for as many to come back. Its calls of `accept`, counted
    /// from 0, fail at the numbers `fails`.
    pub fn new(
        alloc: Global,
        links: VecDeque<MemoryLink>,
        fails: Vec<u64>,
    ) -> Result<MemoryDoor, NoMemory>
        ensures { IfOk result (λ door. door ≡ record {
          left = links.items;
          back = [];
          room = deque_len links;
          fails = fails.items;
          calls = 0;
          faults = 0;
        }) }
    {
        let room = links.len();
        let back = Vec::with_capacity(alloc, room)?;
        Ok(MemoryDoor {
            links,
            back,
            room,
            fails,
            calls: 0,
            faults: 0,
        })
    }

    /// The links that came back, in their order.
    pub fn back(&self) -> &[MemoryLink]
        ensures { result.now ≡ self.now.back }
    {
        self.back.as_slice()
    }
}

impl Door for MemoryDoor {
    type Wire = MemoryLink;

    ghost links = { λ d. Some (porch_seen d) };

    ghost faults = { λ d. d.faults };

    fn accept(&mut self) -> Result<Option<MemoryLink>, Failed>
        ensures taken { MatchResult result
            (λ link. self.old.left ≡ option_to_list link ++ self.new.left)
            (λ _. self.new.left ≡ self.old.left) }
        ensures last { IfOk result (λ link. IsNone link ↔ (self.old.left ≡ [])) }
        ensures cause { HasCause self.old.faults self.new.faults result }
        ensures listed { FailsAsListed self.old.fails self.old.calls result }
        ensures rest { self.new ≡ record self.old {
          left = self.new.left;
          calls = count_after_one self.old.calls;
          faults = faults_after result self.old.faults;
        } }
    {
        begin_call(&self.fails, &mut self.calls, &mut self.faults)?;
        Ok(self.links.pop_front())
    }

    fn ended(&mut self, link: MemoryLink)
        ensures room { 0 < self.old.room
            → self.new ≡ record self.old {
              back = self.old.back ++ link ∷ [];
              room = self.old.room - 1;
            } }
        ensures full { self.old.room ≡ 0 → self.new ≡ self.old }
    {
        if self.room > 0 {
            self.back.push_reserved(link);
            self.room -= 1;
        }
    }
}
