//! A change that was made is taken back. No call takes memory.
ghost use Rattle.std.specs.Prelude.{◌≡◌, ℕ, ◌<◌, List, IsSome, length, set, slice_index_or, if◌then◌else◌};
ghost use Rattle.std.specs.BTreeMap.{is_at};
ghost use Rattle.std.specs.List.{AllByRecursion};
ghost use Rattle.ifmap_ident.specs.declared.items.Item.{Item};
ghost use Rattle.ifmap_ident.specs.Items.{item_order};
ghost use Rattle.ifmap_meta.specs.declared.stored.Stored.{Stored};
ghost use Rattle.ifmap_plans.specs.declared.plans.ItemChange.{ItemChange};
ghost use Rattle.ifmap_view.specs.declared.attachments.Attachment.{Attachment};
ghost use Rattle.ifmap_view.specs.declared.views.LinkSeen.{LinkSeen};
ghost use Rattle.ifmap_view.specs.Rows.{stored_on};
ghost use Rattle.ifmap_graph.specs.Back.{IsUndoTo, stand_each};
ghost use Rattle.ifmap_graph.specs.Drafted.{AreBare, AreLeftBare};
ghost use Rattle.ifmap_graph.specs.Out.{items_changed};
ghost use Rattle.ifmap_graph.specs.Seen.{IsDoneWith, IsStill, links_now, rows_now};
ghost use Rattle.ifmap_graph.specs.Shelved.{AreShelved, slot_of_item, rows_on_side};
ghost use Rattle.ifmap_graph.specs.Sides.{list_now};

use crate::changes::Undo;
use crate::graph::Graph;
use crate::row_lists::RowList;
use crate::shelves::Shelves;
use crate::ways::restore_all;
use ifmap_ident::Item;
use ifmap_ident::laws::bytes_tell_identifiers_apart;
use ifmap_plans::ItemChange;

// A list stands on an item, and the list that was there comes in its place.
fn exchange_one(shelves: &mut Shelves, item: &Item, list: &mut RowList)
    requires shelved { AreShelved shelves.old }
    requires bare { AreBare shelves.old }
    requires there { IsSome (slot_of_item shelves.old item.now) }
    ensures now { (x : Item) → stored_on x (rows_on_side list_now shelves.new)
        ≡ (if is_at (item_order item.now) x then list.old
        else stored_on x (rows_on_side list_now shelves.old)) }
    ensures list { list.new ≡ stored_on item.now (rows_on_side list_now shelves.old) }
    ensures left { AreLeftBare shelves.old shelves.new }
{
    shelves.exchange(item, list);
}

// The list at a place stands on the item there.
fn exchange_at(shelves: &mut Shelves, changes: &[ItemChange], lists: &mut Vec<RowList>, i: usize)
    requires shelved { AreShelved shelves.old }
    requires bare { AreBare shelves.old }
    requires place { i < length changes.now }
    requires room { i < length lists.old.items }
    requires there { (c : ItemChange)
        → IsSome (slot_of_item shelves.old (slice_index_or changes.now i c).item) }
    ensures now { (c : ItemChange) (list : List Stored) (x : Item)
        → stored_on x (rows_on_side list_now shelves.new)
        ≡ (if is_at (item_order (slice_index_or changes.now i c).item) x
        then slice_index_or lists.old.items i list
        else stored_on x (rows_on_side list_now shelves.old)) }
    ensures lists { (c : ItemChange) → lists.new.items ≡ set lists.old.items i
        (stored_on (slice_index_or changes.now i c).item (rows_on_side list_now shelves.old)) }
    ensures left { AreLeftBare shelves.old shelves.new }
{
    exchange_one(shelves, &changes[i].item, &mut lists[i]);
}

// The lists stand on the items of the changes, one after the other.
fn exchange_changes(shelves: &mut Shelves, changes: &[ItemChange], lists: &mut Vec<RowList>)
    requires shelved { AreShelved shelves.old }
    requires bare { AreBare shelves.old }
    requires there { AllByRecursion (λ x. IsSome (slot_of_item shelves.old x))
        (items_changed changes.now) }
    requires long { length lists.old.items ≡ length changes.now }
    ensures now { (x : Item) → stored_on x (rows_on_side list_now shelves.new)
        ≡ stand_each (items_changed changes.now) lists.old.items x
        (stored_on x (rows_on_side list_now shelves.old)) }
    ensures left { AreLeftBare shelves.old shelves.new }
{
    for i in 0..changes.len() {
        exchange_at(shelves, changes, lists, i);
    }
}

impl Graph {
    /// Takes back the change that was made last of those that can be: what was stored is stored
    /// again. It takes no memory.
    pub fn undo(&mut self, undo: Undo)
        requires still { IsStill self.old }
        requires back { (rows : List Attachment) × (links : ℕ → List LinkSeen)
            × IsUndoTo undo rows links self.old }
        ensures back { (rows : List Attachment) (links : ℕ → List LinkSeen)
            → IsUndoTo undo rows links self.old
            → (rows_now self.new ≡ rows) × ((v : ℕ) → links_now self.new v ≡ links v) }
        ensures done { IsDoneWith (items_changed undo.plan.changes) self.old self.new }
    {
        let mut lists = undo.lists;
        let mut ways = undo.ways;
        bytes_tell_identifiers_apart();
        exchange_changes(
            &mut self.shelves,
            undo.plan.changes.as_slice(),
            &mut lists.0,
        );
        restore_all(&mut self.links, &mut ways.0);
        self.release_waits(undo.plan.changes.as_slice());
    }
}
