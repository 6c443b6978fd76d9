//! A plan is made ready, or given up.
ghost use Rattle.std.specs.Prelude.{◌≡◌, ◌≤◌, ℕ, [], None, IfOk, IsSome, OnErr, OnOk, length};
ghost use Rattle.std.specs.List.{AllByRecursion};
ghost use Rattle.ifmap_plans.specs.Plans.{Fits, IsAfter};
ghost use Rattle.ifmap_graph.specs.declared.shelves.Shelves.{Shelves};
ghost use Rattle.ifmap_graph.specs.Back.{KeepsBacks, KeepsOtherBacks};
ghost use Rattle.ifmap_graph.specs.Bringing.{AreGrown, AreInside, BringsShelves, GraphFields, HaveFewOwn, flagged_items, graph_fields};
ghost use Rattle.ifmap_graph.specs.Drafted.{AreBare};
ghost use Rattle.ifmap_graph.specs.Making.{IsMade, IsUnmade};
ghost use Rattle.ifmap_graph.specs.Out.{IsOut, items_changed};
ghost use Rattle.ifmap_graph.specs.Seen.{AreAwaited, AwaitsMore, HasFewOwn, IsDoneWith, IsSeenSame, IsStill, KeepsNumbers, KeepsOwn, StaysLeanWith, links_now, rows_next, rows_now};
ghost use Rattle.ifmap_graph.specs.Shelved.{slot_of_item, rows_on_side};
ghost use Rattle.ifmap_graph.specs.Sides.{list_now};
ghost use Rattle.ifmap_graph.specs.Touched.{AreExactlyDrafted};
ghost use Rattle.ifmap_graph.specs.Turning.{sides_at};

use crate::bringing::{place_items, take_shelves};
use crate::changes::Ready;
use crate::drafting::{draft_and_wait, drop_plan};
use crate::graph::Graph;
use crate::row_lists::RowList;
use crate::shelves::Shelves;
use crate::sided::Sided;
use crate::ways::ReplacedList;
use ifmap_elem::Many;
use ifmap_ident::Identifier;
use ifmap_ident::laws::bytes_tell_identifiers_apart;
use ifmap_plans::{ItemChange, Plan};
use ifmap_pool::Pool;
use ifmap_view::LinkSeen;
use std::alloc::{AllocError as NoMemory, Global};

// Room for the list that gives way, for so many items.
fn empty_lists(alloc: Global, n: usize) -> Result<Vec<RowList>, NoMemory>
    ensures { IfOk result (λ lists. length lists.items ≡ n) }
{
    let mut lists = Vec::with_capacity(alloc, n)?;
    'lists: while lists.len() < n {
        lists.push(RowList::new())?;
    }
    Ok(lists)
}

// The items of a change, and flags at those whose shelves came for it.
#[derive(Drop)]
struct Coming<'a> {
    changes: &'a [ItemChange],
    fresh: &'a [bool],
}

// The drafts of a change whose items have shelves, of which those are flagged that came for it.
// After want of memory, those go again.
fn draft_or_take(
    names: &mut Pool<Identifier>,
    shelves: &mut Shelves,
    links: &mut Vec<Sided<LinkSeen>>,
    alloc: Global,
    coming: &Coming<'_>,
    ways: &mut Vec<ReplacedList<LinkSeen>>,
) -> Result<(), NoMemory>
    requires inside { AreInside (graph_fields names.old shelves.old links.old.items) }
    requires bare { AreBare shelves.old }
    requires none { (v : ℕ) → (sides_at links.old.items v).draft ≡ None }
    requires ready { AreExactlyDrafted ways.old.items links.old.items }
    requires there { AllByRecursion (λ x. IsSome (slot_of_item shelves.old x))
        (items_changed coming.now.changes.now) }
    requires fits { Fits (rows_on_side list_now shelves.old) coming.now.changes.now }
    requires long { length coming.now.fresh.now ≤ length coming.now.changes.now }
    requires brought { (first : Shelves)
        × (rows_on_side list_now first ≡ rows_on_side list_now shelves.old)
        × BringsShelves (flagged_items (items_changed coming.now.changes.now) coming.now.fresh.now)
        first shelves.old }
    ensures made { OnOk result ((first : GraphFields)
        → AreGrown first (graph_fields names.old shelves.old links.old.items)
        → BringsShelves (flagged_items (items_changed coming.now.changes.now) coming.now.fresh.now)
        first.shelves shelves.old
        → IsMade coming.now.changes.now ways.new.items first
        (graph_fields names.new shelves.new links.new.items)) }
    ensures unmade { OnErr result ((first : GraphFields) → AreInside first
        → AreGrown first (graph_fields names.old shelves.old links.old.items)
        → BringsShelves (flagged_items (items_changed coming.now.changes.now) coming.now.fresh.now)
        first.shelves shelves.old
        → IsUnmade first (graph_fields names.new shelves.new links.new.items)) }
{
    match draft_and_wait(shelves, links, alloc, coming.changes, ways) {
        Ok(()) => Ok(()),
        Err(no_memory) => {
            drop_plan(shelves, links, coming.changes, ways);
            take_shelves(names, shelves, coming.changes, coming.fresh);
            Err(no_memory)
        }
    }
}

// A change comes to be out. After want of memory, all is as before but for room.
fn make_ready(
    names: &mut Pool<Identifier>,
    shelves: &mut Shelves,
    links: &mut Vec<Sided<LinkSeen>>,
    alloc: Global,
    changes: &[ItemChange],
    ways: &mut Vec<ReplacedList<LinkSeen>>,
) -> Result<(), NoMemory>
    requires inside { AreInside (graph_fields names.old shelves.old links.old.items) }
    requires bare { AreBare shelves.old }
    requires none { (v : ℕ) → (sides_at links.old.items v).draft ≡ None }
    requires few { HaveFewOwn (graph_fields names.old shelves.old links.old.items) }
    requires fits { Fits (rows_on_side list_now shelves.old) changes.now }
    requires empty { ways.old.items ≡ [] }
    ensures made { OnOk result (IsMade changes.now ways.new.items
        (graph_fields names.old shelves.old links.old.items)
        (graph_fields names.new shelves.new links.new.items)) }
    ensures unmade { OnErr result (IsUnmade (graph_fields names.old shelves.old links.old.items)
        (graph_fields names.new shelves.new links.new.items)) }
{
    let mut fresh = Vec::new(alloc);
    match place_items(names, shelves, links, alloc, changes, &mut fresh) {
        Ok(()) => {
            let fresh = &fresh;
            let coming = Coming { changes, fresh };
            draft_or_take(names, shelves, links, alloc, &coming, ways)
        }
        Err(no_memory) => {
            take_shelves(names, shelves, changes, &fresh);
            Err(no_memory)
        }
    }
}

impl Graph {
    /// Makes all room for a plan, with numbers for the identifiers that it brings, and its drafts.
    /// What is stored stays as it is. The one error is want of memory, after which all is as before
    /// but for room.
    pub fn reserve(&mut self, alloc: Global, plan: Plan) -> Result<Ready, NoMemory>
        requires still { IsStill self.old }
        requires fits { Fits (rows_now self.old) plan.changes }
        requires few { HasFewOwn self.old }
        ensures out { IfOk result (λ ready. IsOut ready self.new) }
        ensures plan { IfOk result (λ ready. ready.plan ≡ plan) }
        ensures after { OnOk result (IsAfter plan.changes (rows_now self.old)
            (rows_next self.new)) }
        ensures now { rows_now self.new ≡ rows_now self.old }
        ensures links { (v : ℕ) → links_now self.new v ≡ links_now self.old v }
        ensures numbers { KeepsNumbers self.old self.new }
        ensures own { KeepsOwn self.old self.new }
        ensures waits { OnOk result (AwaitsMore (items_changed plan.changes) self.old self.new) }
        ensures lean { OnOk result (StaysLeanWith (items_changed plan.changes) self.old self.new) }
        ensures backs { KeepsBacks self.old self.new }
        ensures still { OnErr result (IsStill self.new) }
        ensures err { OnErr result (IsSeenSame self.old self.new) }
    {
        bytes_tell_identifiers_apart();
        let lists = empty_lists(alloc, plan.changes.len())?;
        let mut ways = Vec::new(alloc);
        make_ready(
            &mut self.names,
            &mut self.shelves,
            &mut self.links,
            alloc,
            plan.changes.as_slice(),
            &mut ways,
        )?;
        Ok(Ready {
            plan,
            lists: Many(lists),
            ways: Many(ways),
        })
    }

    /// Gives up a plan that is out. It takes no memory.
    pub fn forget(&mut self, ready: Ready)
        requires out { IsOut ready self.old }
        requires waits { AreAwaited (items_changed ready.plan.changes) self.old }
        ensures now { rows_now self.new ≡ rows_now self.old }
        ensures links { (v : ℕ) → links_now self.new v ≡ links_now self.old v }
        ensures done { IsDoneWith (items_changed ready.plan.changes) self.old self.new }
        ensures backs { KeepsOtherBacks (items_changed ready.plan.changes) self.old self.new }
    {
        drop_plan(
            &mut self.shelves,
            &mut self.links,
            ready.plan.changes.as_slice(),
            ready.ways.as_slice(),
        );
        self.release_waits(ready.plan.changes.as_slice());
    }
}
