//! A change that was made stays: its items are waited for no longer, and shelves that are empty go.
ghost use Rattle.std.specs.Prelude.{◌≡◌, ℕ};
ghost use Rattle.ifmap_graph.specs.Back.{KeepsOtherBacks};
ghost use Rattle.ifmap_graph.specs.Out.{IsOut, items_changed};
ghost use Rattle.ifmap_graph.specs.Seen.{AreAwaited, IsDoneWith, IsStill, links_next, links_now, rows_next, rows_now};
ghost use Rattle.ifmap_graph.specs.Stays.{StayPlaced};

use crate::changes::{Ready, Undo};
use crate::graph::Graph;
use crate::releasing::release_items;
use ifmap_ident::laws::bytes_tell_identifiers_apart;
use ifmap_plans::{ItemChange, Plan};

impl Graph {
    // The items of changes are waited for once less each, and shelves that are empty and not waited
    // for go. It takes no memory.
    pub(crate) fn release_waits(&mut self, changes: &[ItemChange])
        requires still { IsStill self.old }
        requires waits { AreAwaited (items_changed changes.now) self.old }
        ensures now { rows_now self.new ≡ rows_now self.old }
        ensures next { rows_next self.new ≡ rows_next self.old }
        ensures links { self.new.links ≡ self.old.links }
        ensures done { IsDoneWith (items_changed changes.now) self.old self.new }
        ensures stay { StayPlaced self.old self.new }
        ensures backs { KeepsOtherBacks (items_changed changes.now) self.old self.new }
    {
        bytes_tell_identifiers_apart();
        release_items(&mut self.names, &mut self.shelves, changes);
    }

    /// Gives up a way back, and hands out the plan. It takes no memory.
    pub fn settle(&mut self, undo: Undo) -> Plan
        requires still { IsStill self.old }
        requires waits { AreAwaited (items_changed undo.plan.changes) self.old }
        ensures plan { result ≡ undo.plan }
        ensures now { rows_now self.new ≡ rows_now self.old }
        ensures links { (v : ℕ) → links_now self.new v ≡ links_now self.old v }
        ensures done { IsDoneWith (items_changed undo.plan.changes) self.old self.new }
        ensures backs { KeepsOtherBacks (items_changed undo.plan.changes) self.old self.new }
    {
        self.release_waits(undo.plan.changes.as_slice());
        undo.plan
    }

    /// Carries out a plan that is out. It takes no memory.
    pub fn commit(&mut self, ready: Ready) -> Plan
        requires out { IsOut ready self.old }
        requires waits { AreAwaited (items_changed ready.plan.changes) self.old }
        ensures plan { result ≡ ready.plan }
        ensures now { rows_now self.new ≡ rows_next self.old }
        ensures links { (v : ℕ) → links_now self.new v ≡ links_next self.old v }
        ensures done { IsDoneWith (items_changed ready.plan.changes) self.old self.new }
    {
        let undo = self.commit_kept(ready);
        self.settle(undo)
    }
}
