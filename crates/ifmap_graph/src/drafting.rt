//! The drafts of a change: what is to be stored on each of its items.
ghost use Rattle.std.specs.Prelude.{◌≡◌, ◌⊎◌, ℕ, true, None, IsSome, OnErr, OnOk, if◌then◌else◌};
ghost use Rattle.std.specs.BTreeMap.{is_at};
ghost use Rattle.std.specs.List.{AllByRecursion};
ghost use Rattle.ifmap_ident.specs.declared.items.Item.{Item};
ghost use Rattle.ifmap_ident.specs.Items.{item_order};
ghost use Rattle.ifmap_plans.specs.Lists.{next_on};
ghost use Rattle.ifmap_plans.specs.Plans.{Fits, IsAfter};
ghost use Rattle.ifmap_view.specs.Rows.{stored_on};
ghost use Rattle.ifmap_graph.specs.Drafted.{AreBare, AreOut, DraftsWithin, DropDrafts, HaveDraftsWithin, StayInPlace, StayShelved, ends_at};
ghost use Rattle.ifmap_graph.specs.Making.{CanBeDrafted, HasAllDrafts, HasDrafts};
ghost use Rattle.ifmap_graph.specs.Out.{items_changed};
ghost use Rattle.ifmap_graph.specs.Shelved.{AreShelved, HasDraft, slot_of_item, rows_on_side};
ghost use Rattle.ifmap_graph.specs.Sides.{list_next, list_now};
ghost use Rattle.ifmap_graph.specs.Touched.{AreExactlyDrafted, KeepsLinks};
ghost use Rattle.ifmap_graph.specs.Turning.{sides_at};
ghost use Rattle.ifmap_graph.specs.Waits.{WaitsFor, waits_on};

use crate::linking::{drop_drafts, flipped_slots, touch_slots};
use crate::shelves::Shelves;
use crate::sided::Sided;
use crate::turning::discard_changes;
use crate::waiting::{can_wait, wait_for};
use crate::ways::ReplacedList;
use ifmap_plans::ItemChange;
use ifmap_view::LinkSeen;
use std::alloc::{AllocError as NoMemory, Global};

// The draft of one item that has a shelf.
fn draft_one(shelves: &mut Shelves, alloc: Global, change: &ItemChange) -> Result<(), NoMemory>
    requires shelved { AreShelved shelves.old }
    requires there { IsSome (slot_of_item shelves.old change.now.item) }
    ensures now { rows_on_side list_now shelves.new ≡ rows_on_side list_now shelves.old }
    ensures next { OnOk result ((x : Item) → stored_on x (rows_on_side list_next shelves.new)
        ≡ (if is_at (item_order change.now.item) x
        then next_on change.now.removed change.now.added
        (stored_on change.now.item (rows_on_side list_now shelves.old))
        else stored_on x (rows_on_side list_next shelves.old))) }
    ensures drafts { (x : Item) → HasDraft shelves.new x
        → HasDraft shelves.old x ⊎ (is_at (item_order change.now.item) x ≡ true) }
    ensures kept { (x : Item) → HasDraft shelves.old x → HasDraft shelves.new x }
    ensures drafted { OnOk result (HasDraft shelves.new change.now.item) }
    ensures stays { StayShelved shelves.old shelves.new }
{
    let list = shelves.make_next(alloc, change)?;
    shelves.propose(&change.item, list);
    Ok(())
}

// What is to be stored after a change, on items that have shelves, none of which has a draft. After
// want of memory, some have one.
pub(crate) fn draft_changes(
    shelves: &mut Shelves,
    alloc: Global,
    changes: &[ItemChange],
) -> Result<(), NoMemory>
    requires shelved { AreShelved shelves.old }
    requires bare { AreBare shelves.old }
    requires there { AllByRecursion (λ x. IsSome (slot_of_item shelves.old x))
        (items_changed changes.now) }
    requires fits { Fits (rows_on_side list_now shelves.old) changes.now }
    ensures now { rows_on_side list_now shelves.new ≡ rows_on_side list_now shelves.old }
    ensures next { OnOk result
        (IsAfter changes.now (rows_on_side list_now shelves.old)
        (rows_on_side list_next shelves.new)) }
    ensures within { DraftsWithin (items_changed changes.now) shelves.new }
    ensures out { OnOk result (AreOut (items_changed changes.now) shelves.new) }
    ensures stays { StayShelved shelves.old shelves.new }
{
    for change in changes {
        draft_one(shelves, alloc, change)?;
    }
    Ok(())
}

// The drafts of a change, whose items have shelves: what is to be stored on them, and the links
// that are to be. Nothing has a draft before. After want of memory, some stand.
pub(crate) fn draft_plan(
    shelves: &mut Shelves,
    links: &mut Vec<Sided<LinkSeen>>,
    alloc: Global,
    changes: &[ItemChange],
    ways: &mut Vec<ReplacedList<LinkSeen>>,
) -> Result<(), NoMemory>
    requires { CanBeDrafted shelves.old links.old.items ways.old.items changes.now }
    ensures drafts { HasDrafts changes.now ways.new.items shelves.old shelves.new links.old.items
        links.new.items }
    ensures all { OnOk result (HasAllDrafts changes.now shelves.old shelves.new links.old.items
        links.new.items) }
    ensures stays { StayInPlace shelves.old shelves.new }
{
    draft_changes(shelves, alloc, changes)?;
    let touched = flipped_slots(alloc, shelves, changes)?;
    touch_slots(links, &shelves.slots, alloc, &touched, ways)
}

// The same, and the items are waited for once more. After want of memory, some drafts stand.
pub(crate) fn draft_and_wait(
    shelves: &mut Shelves,
    links: &mut Vec<Sided<LinkSeen>>,
    alloc: Global,
    changes: &[ItemChange],
    ways: &mut Vec<ReplacedList<LinkSeen>>,
) -> Result<(), NoMemory>
    requires { CanBeDrafted shelves.old links.old.items ways.old.items changes.now }
    ensures drafts { HasDrafts changes.now ways.new.items shelves.old shelves.new links.old.items
        links.new.items }
    ensures all { OnOk result (HasAllDrafts changes.now shelves.old shelves.new links.old.items
        links.new.items) }
    ensures waited { OnOk result (WaitsFor (items_changed changes.now) shelves.old shelves.new) }
    ensures waits { OnErr result ((x : Item) → waits_on shelves.new x ≡ waits_on shelves.old x) }
    ensures ends { (at : ℕ) → ends_at shelves.new at ≡ ends_at shelves.old at }
    ensures places { shelves.new.places ≡ shelves.old.places }
{
    draft_plan(shelves, links, alloc, changes, ways)?;
    if !can_wait(shelves, changes) {
        return Err(NoMemory);
    }
    wait_for(shelves, changes);
    Ok(())
}

// Nothing has a draft any more. It takes no memory.
pub(crate) fn drop_plan(
    shelves: &mut Shelves,
    links: &mut Vec<Sided<LinkSeen>>,
    changes: &[ItemChange],
    ways: &[ReplacedList<LinkSeen>],
)
    requires drafts { HaveDraftsWithin (items_changed changes.now) shelves.old }
    requires ready { AreExactlyDrafted ways.now links.old.items }
    ensures drop { DropDrafts shelves.old shelves.new }
    ensures links { KeepsLinks links.old.items links.new.items }
    ensures none { (v : ℕ) → (sides_at links.new.items v).draft ≡ None }
{
    discard_changes(shelves, changes);
    drop_drafts(links, ways);
}
