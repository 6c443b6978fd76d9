//! The items of a change that is out are waited for. No call takes memory.
ghost use Rattle.std.specs.Prelude.{◌≡◌, ◌<◌, ◌-◌, ◌^◌, ℕ, true, IsSome};
ghost use Rattle.std.specs.List.{AllByRecursion, IsDistinct};
ghost use Rattle.slab.specs.Slab.{get};
ghost use Rattle.ifmap_ident.specs.declared.items.Item.{Item};
ghost use Rattle.ifmap_ident.specs.Items.{same_item};
ghost use Rattle.ifmap_graph.specs.Drafted.{ends_at};
ghost use Rattle.ifmap_graph.specs.Out.{items_changed};
ghost use Rattle.ifmap_graph.specs.Shelved.{AreShelved, HasDraft, slot_of_item, rows_on_side};
ghost use Rattle.ifmap_graph.specs.Sides.{list_next, list_now};
ghost use Rattle.ifmap_graph.specs.Waits.{WaitsFor, waits_of, waits_on};

use crate::shelves::{Shelf, Shelves};
use ifmap_ident::Item;
use ifmap_plans::ItemChange;
use slab::Slab;

// How often a slot is waited for.
fn waits_in(slots: &Slab<Shelf>, at: usize) -> u64
    ensures { result ≡ waits_of (get slots.now at) }
{
    match slots.get(at) {
        Some(shelf) => shelf.waits,
        None => 0,
    }
}

// How often an item is waited for.
fn waits_for(shelves: &Shelves, item: &Item) -> u64
    ensures { result ≡ waits_on shelves.now item.now }
{
    match shelves.places.get(item) {
        Some(at) => waits_in(&shelves.slots, *at),
        None => 0,
    }
}

// Whether each item of a change can be waited for once more and still be counted.
pub(crate) fn can_wait(shelves: &Shelves, changes: &[ItemChange]) -> bool
    ensures { result ≡ true
        → AllByRecursion (λ x. waits_on shelves.now x < 2 ^ 64 - 1) (items_changed changes.now) }
{
    for change in changes {
        if waits_for(shelves, &change.item) == u64::MAX {
            return false;
        }
    }
    true
}

// The items of a change, which have shelves, are waited for once more.
pub(crate) fn wait_for(shelves: &mut Shelves, changes: &[ItemChange])
    requires shelved { AreShelved shelves.old }
    requires there { AllByRecursion (λ x. IsSome (slot_of_item shelves.old x))
        (items_changed changes.now) }
    requires few { AllByRecursion (λ x. waits_on shelves.old x < 2 ^ 64 - 1)
        (items_changed changes.now) }
    requires apart { IsDistinct same_item (items_changed changes.now) }
    ensures shelved { AreShelved shelves.new }
    ensures now { rows_on_side list_now shelves.new ≡ rows_on_side list_now shelves.old }
    ensures next { rows_on_side list_next shelves.new ≡ rows_on_side list_next shelves.old }
    ensures waits { WaitsFor (items_changed changes.now) shelves.old shelves.new }
    ensures drafts { (x : Item) → HasDraft shelves.new x → HasDraft shelves.old x }
    ensures kept { (x : Item) → HasDraft shelves.old x → HasDraft shelves.new x }
    ensures ends { (at : ℕ) → ends_at shelves.new at ≡ ends_at shelves.old at }
    ensures places { shelves.new.places ≡ shelves.old.places }
{
    for change in changes {
        shelves.wait(&change.item);
    }
}
