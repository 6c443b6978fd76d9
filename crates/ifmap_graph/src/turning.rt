//! The items of a change that is out, one after another: their drafts are accepted, or taken back.
//! No call takes memory.
ghost use Rattle.std.specs.Prelude.{◌≡◌, ◌<◌, false, IsSome, length, map, set, slice_index_or};
ghost use Rattle.ifmap_ident.specs.declared.items.Item.{Item};
ghost use Rattle.ifmap_ident.specs.Items.{same_item};
ghost use Rattle.ifmap_plans.specs.declared.plans.ItemChange.{ItemChange};
ghost use Rattle.ifmap_view.specs.Rows.{stored_on};
ghost use Rattle.ifmap_graph.specs.Drafted.{AreLeftBare, AreOut, DropDrafts, HaveDraftsWithin, StayShelved};
ghost use Rattle.ifmap_graph.specs.Out.{items_changed};
ghost use Rattle.ifmap_graph.specs.Shelved.{AreShelved, HasDraft, slot_of_item, rows_on_side};
ghost use Rattle.ifmap_graph.specs.Sides.{list_next, list_now};

use crate::row_lists::RowList;
use crate::shelves::Shelves;
use ifmap_ident::Item;
use ifmap_plans::ItemChange;

// The draft of one item is accepted, and the list that was there comes in place of the one given.
fn accept_one(shelves: &mut Shelves, item: &Item, list: &mut RowList)
    requires shelved { AreShelved shelves.old }
    requires drafted { HasDraft shelves.old item.now }
    ensures next { rows_on_side list_next shelves.new ≡ rows_on_side list_next shelves.old }
    ensures list { list.new ≡ stored_on item.now (rows_on_side list_now shelves.old) }
    ensures drafts { (x : Item) → HasDraft shelves.new x
        → HasDraft shelves.old x × (same_item x item.now ≡ false) }
    ensures others { (x : Item) → same_item x item.now ≡ false
        → (HasDraft shelves.old x → HasDraft shelves.new x)
        × (stored_on x (rows_on_side list_now shelves.new)
        ≡ stored_on x (rows_on_side list_now shelves.old)) }
    ensures stays { StayShelved shelves.old shelves.new }
{
    *list = shelves.accept(item);
}

// The draft of the item at a place is accepted.
fn accept_at(shelves: &mut Shelves, changes: &[ItemChange], lists: &mut Vec<RowList>, i: usize)
    requires shelved { AreShelved shelves.old }
    requires place { i < length changes.now }
    requires room { i < length lists.old.items }
    requires drafted { (c : ItemChange)
        → HasDraft shelves.old (slice_index_or changes.now i c).item }
    ensures next { rows_on_side list_next shelves.new ≡ rows_on_side list_next shelves.old }
    ensures lists { (c : ItemChange) → lists.new.items ≡ set lists.old.items i
        (stored_on (slice_index_or changes.now i c).item (rows_on_side list_now shelves.old)) }
    ensures drafts { (c : ItemChange) (x : Item) → HasDraft shelves.new x
        → HasDraft shelves.old x × (same_item x (slice_index_or changes.now i c).item ≡ false) }
    ensures others { (c : ItemChange) (x : Item)
        → same_item x (slice_index_or changes.now i c).item ≡ false
        → (HasDraft shelves.old x → HasDraft shelves.new x)
        × (stored_on x (rows_on_side list_now shelves.new)
        ≡ stored_on x (rows_on_side list_now shelves.old)) }
    ensures stays { StayShelved shelves.old shelves.new }
{
    accept_one(shelves, &changes[i].item, &mut lists[i]);
}

// What was to be stored is stored, and the lists that were there come in the places of those given.
pub(crate) fn accept_changes(
    shelves: &mut Shelves,
    changes: &[ItemChange],
    lists: &mut Vec<RowList>,
)
    requires shelved { AreShelved shelves.old }
    requires out { AreOut (items_changed changes.now) shelves.old }
    requires long { length lists.old.items ≡ length changes.now }
    ensures next { rows_on_side list_next shelves.new ≡ rows_on_side list_next shelves.old }
    ensures now { rows_on_side list_now shelves.new ≡ rows_on_side list_next shelves.old }
    ensures lists { lists.new.items
        ≡ map (λ c. stored_on c.item (rows_on_side list_now shelves.old)) changes.now }
    ensures left { AreLeftBare shelves.old shelves.new }
{
    for i in 0..changes.len() {
        accept_at(shelves, changes, lists, i);
    }
}

// The draft of the item at a place is taken back.
fn discard_at(shelves: &mut Shelves, changes: &[ItemChange], i: usize)
    requires shelved { AreShelved shelves.old }
    requires place { i < length changes.now }
    requires there { (c : ItemChange)
        → IsSome (slot_of_item shelves.old (slice_index_or changes.now i c).item) }
    ensures now { rows_on_side list_now shelves.new ≡ rows_on_side list_now shelves.old }
    ensures drafts { (c : ItemChange) (x : Item) → HasDraft shelves.new x
        → HasDraft shelves.old x × (same_item x (slice_index_or changes.now i c).item ≡ false) }
    ensures stays { StayShelved shelves.old shelves.new }
{
    shelves.discard(&changes[i].item);
}

// What is stored is what is to be: the drafts are taken back.
pub(crate) fn discard_changes(shelves: &mut Shelves, changes: &[ItemChange])
    requires { HaveDraftsWithin (items_changed changes.now) shelves.old }
    ensures { DropDrafts shelves.old shelves.new }
{
    for i in 0..changes.len() {
        discard_at(shelves, changes, i);
    }
}
