//! Shelves for the items of a change that have none, and how they go again.
ghost use Rattle.std.specs.Prelude.{◌≡◌, ◌<◌, ◌≤◌, ◌^◌, ℕ, true, false, List, [], ◌∷◌, None, IfOk, IsSome, OnErr, OnOk, length, if◌then◌else◌};
ghost use Rattle.std.specs.List.{AllByRecursion, IsDistinct};
ghost use Rattle.slab.specs.Slab.{get};
ghost use Rattle.ifmap_ident.specs.Identifiers.{identifier_order};
ghost use Rattle.ifmap_ident.specs.Items.{IsCanonItem, same_item};
ghost use Rattle.ifmap_pool.specs.Holdings.{IsPool};
ghost use Rattle.ifmap_view.specs.declared.views.LinkSeen.{LinkSeen};
ghost use Rattle.ifmap_graph.specs.declared.shelves.Shelves.{Shelves};
ghost use Rattle.ifmap_graph.specs.Bringing.{AreGrown, AreInside, BringsShelves, CanPlace, HaveFewOwn, flagged_items, graph_fields};
ghost use Rattle.ifmap_graph.specs.Drafted.{AreBare};
ghost use Rattle.ifmap_graph.specs.Inside.{IsInside};
ghost use Rattle.ifmap_graph.specs.Out.{items_changed};
ghost use Rattle.ifmap_graph.specs.Releasing.{IsLess};
ghost use Rattle.ifmap_graph.specs.Shelved.{AreShelved, HasEmptyShelf, slot_of_item, rows_on_side};
ghost use Rattle.ifmap_graph.specs.Sides.{Sides, list_now};
ghost use Rattle.ifmap_graph.specs.Turning.{sides_at};
ghost use Rattle.ifmap_graph.specs.Waits.{waits_on};

use crate::placing::{lengthen, place_shelf, remove_shelf};
use crate::shelves::Shelves;
use crate::sided::Sided;
use ifmap_elem::Copied;
use ifmap_ident::{Identifier, Item};
use ifmap_plans::ItemChange;
use ifmap_pool::Pool;
use ifmap_view::LinkSeen;
use std::alloc::{AllocError as NoMemory, Global};

// So many items can have a shelf: more, and the holds of their identifiers could not be counted.
pub(crate) const MOST_ITEMS: usize = 1 << 62;

// Room for two numbers more, with their links. After want of memory, there may be more room.
fn make_room(
    names: &mut Pool<Identifier>,
    links: &mut Vec<Sided<LinkSeen>>,
    alloc: Global,
) -> Result<(), NoMemory>
    ensures live { names.new.live ≡ names.old.live }
    ensures whole { IsPool identifier_order names.new }
    ensures same { (v : ℕ) → sides_at links.new.items v ≡ sides_at links.old.items v }
    ensures longer { length links.old.items ≤ length links.new.items }
    ensures room { OnOk result (2 ≤ names.new.spare) }
    ensures limit { OnOk result (names.new.limit ≤ length links.new.items) }
{
    names.reserve(2)?;
    lengthen(links, alloc, names.limit())
}

// A shelf for an item that has none, still empty, with the numbers of its identifiers held.
fn place_item(
    names: &mut Pool<Identifier>,
    shelves: &mut Shelves,
    links: &mut Vec<Sided<LinkSeen>>,
    alloc: Global,
    item: &Item,
) -> Result<(), NoMemory>
    requires can { CanPlace (graph_fields names.old shelves.old links.old.items) item.now }
    requires absent { slot_of_item shelves.old item.now ≡ None }
    ensures grown { AreGrown (graph_fields names.old shelves.old links.old.items)
        (graph_fields names.new shelves.new links.new.items) }
    ensures brought { OnOk result (BringsShelves (item.now ∷ []) shelves.old shelves.new) }
    ensures none { OnErr result (BringsShelves [] shelves.old shelves.new) }
{
    if shelves.places.len() >= MOST_ITEMS {
        return Err(NoMemory);
    }
    let key = item.copy(alloc)?;
    let ends = item.copy(alloc)?;
    make_room(names, links, alloc)?;
    place_shelf(names, shelves, alloc, key, ends)
}

// The same, unless the item has a shelf. Says whether it comes.
fn place_missing(
    names: &mut Pool<Identifier>,
    shelves: &mut Shelves,
    links: &mut Vec<Sided<LinkSeen>>,
    alloc: Global,
    item: &Item,
) -> Result<bool, NoMemory>
    requires { CanPlace (graph_fields names.old shelves.old links.old.items) item.now }
    ensures grown { AreGrown (graph_fields names.old shelves.old links.old.items)
        (graph_fields names.new shelves.new links.new.items) }
    ensures brought { IfOk result
        (λ comes. BringsShelves (if comes then item.now ∷ [] else []) shelves.old shelves.new) }
    ensures none { OnErr result (BringsShelves [] shelves.old shelves.new) }
    ensures there { OnOk result (IsSome (slot_of_item shelves.new item.now)) }
{
    if shelves.places.contains_key(item) {
        return Ok(false);
    }
    place_item(names, shelves, links, alloc, item)?;
    Ok(true)
}

// Shelves for the items of a change that have none, and flags at those. After want of memory, some
// have come.
pub(crate) fn place_items(
    names: &mut Pool<Identifier>,
    shelves: &mut Shelves,
    links: &mut Vec<Sided<LinkSeen>>,
    alloc: Global,
    changes: &[ItemChange],
    fresh: &mut Vec<bool>,
) -> Result<(), NoMemory>
    requires inside { AreInside (graph_fields names.old shelves.old links.old.items) }
    requires canon { AllByRecursion IsCanonItem (items_changed changes.now) }
    requires few { HaveFewOwn (graph_fields names.old shelves.old links.old.items) }
    requires none { fresh.old.items ≡ [] }
    ensures grown { AreGrown (graph_fields names.old shelves.old links.old.items)
        (graph_fields names.new shelves.new links.new.items) }
    ensures brought { BringsShelves
        (flagged_items (items_changed changes.now) fresh.new.items) shelves.old
        shelves.new }
    ensures there { OnOk result
        (AllByRecursion (λ x. IsSome (slot_of_item shelves.new x)) (items_changed changes.now)) }
    ensures long { length fresh.new.items ≤ length changes.now }
{
    for change in changes {
        fresh.reserve(1)?;
        let comes = place_missing(names, shelves, links, alloc, &change.item)?;
        fresh.push_reserved(comes);
    }
    Ok(())
}

// A shelf that came goes again.
fn take_shelf(names: &mut Pool<Identifier>, shelves: &mut Shelves, item: &Item, came: bool)
    requires inside { (links : List (Sides LinkSeen)) × IsInside names.old (get shelves.old.slots)
        shelves.old.places.entries links }
    requires empty { came ≡ true → HasEmptyShelf shelves.old item.now }
    requires idle { came ≡ true → waits_on shelves.old item.now ≡ 0 }
    ensures less { IsLess names.old names.new shelves.old shelves.new }
    ensures taken { BringsShelves (if came then item.now ∷ [] else []) shelves.new shelves.old }
{
    if came {
        remove_shelf(names, shelves, item);
    }
}

// The shelves of a change's items that came go again. It takes no memory.
pub(crate) fn take_shelves(
    names: &mut Pool<Identifier>,
    shelves: &mut Shelves,
    changes: &[ItemChange],
    fresh: &[bool],
)
    requires inside { (links : List (Sides LinkSeen)) × IsInside names.old (get shelves.old.slots)
        shelves.old.places.entries links }
    requires bare { AreBare shelves.old }
    requires apart { IsDistinct same_item (items_changed changes.now) }
    requires long { length fresh.now ≤ length changes.now }
    requires brought { (first : Shelves)
        × (rows_on_side list_now first ≡ rows_on_side list_now shelves.old)
        × BringsShelves (flagged_items (items_changed changes.now) fresh.now) first shelves.old }
    ensures less { IsLess names.old names.new shelves.old shelves.new }
    ensures taken { (first : Shelves)
        → BringsShelves (flagged_items (items_changed changes.now) fresh.now) first shelves.old
        → BringsShelves [] first shelves.new }
{
    for i in 0..fresh.len() {
        take_shelf(names, shelves, &changes[i].item, fresh[i]);
    }
}
