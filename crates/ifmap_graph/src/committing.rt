//! A change that is out is made. No call takes memory.
ghost use Rattle.std.specs.Prelude.{◌≡◌, ℕ, [], map};
ghost use Rattle.ifmap_view.specs.Rows.{stored_on};
ghost use Rattle.ifmap_graph.specs.Inside.{links_at};
ghost use Rattle.ifmap_graph.specs.Back.{IsUndoTo};
ghost use Rattle.ifmap_graph.specs.Out.{IsOut, items_changed};
ghost use Rattle.ifmap_graph.specs.Seen.{AreAwaited, AwaitsMore, IsStill, KeepsOwn, StaysLean, links_now, rows_now};
ghost use Rattle.ifmap_graph.specs.Shelved.{list_at, rows_by};
ghost use Rattle.ifmap_graph.specs.Sides.{list_next, list_now};
ghost use Rattle.ifmap_graph.specs.Turning.{backs};

use crate::changes::{Ready, Undo};
use crate::graph::Graph;
use crate::turning::accept_changes;
use crate::ways::accept_all;

impl Graph {
    /// What was to be is, on both sides, and what was there can come again. It takes no memory.
    pub fn commit_kept(&mut self, ready: Ready) -> Undo
        requires { IsOut ready self.old }
        ensures now { rows_by (list_at list_now) self.new.shelves
            ≡ rows_by (list_at list_next) self.old.shelves }
        ensures next { rows_by (list_at list_next) self.new.shelves
            ≡ rows_by (list_at list_next) self.old.shelves }
        ensures links { (v : ℕ)
            → links_at list_now self.new.links v ≡ links_at list_next self.old.links v }
        ensures names { self.new.names ≡ self.old.names }
        ensures places { self.new.places ≡ self.old.places }
        ensures still { IsStill self.new }
        ensures own { KeepsOwn self.old self.new }
        ensures waits { AwaitsMore [] self.old self.new }
        ensures lean { AreAwaited (items_changed ready.plan.changes) self.old
            → StaysLean self.old self.new }
        ensures plan { result.plan ≡ ready.plan }
        ensures lists { result.lists ≡ map
            (λ c. stored_on c.item (rows_by (list_at list_now) self.old.shelves))
            ready.plan.changes }
        ensures ways { result.ways ≡ backs ready.ways self.old.links }
        ensures back { AreAwaited (items_changed ready.plan.changes) self.old → IsUndoTo result
            (rows_now self.old) (links_now self.old) self.new }
    {
        let mut lists = ready.lists;
        let mut ways = ready.ways;
        accept_changes(
            &mut self.shelves,
            ready.plan.changes.as_slice(),
            &mut lists.0,
        );
        accept_all(&mut self.links, &mut ways.0);
        Undo {
            plan: ready.plan,
            lists,
            ways,
        }
    }
}
