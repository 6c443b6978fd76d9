//! A shelf for an item that has none, with the numbers of its identifiers held.
ghost use Rattle.std.specs.Prelude.{◌≡◌, ℕ, ◌+◌, ◌-◌, ◌<◌, ◌≤◌, ◌^◌, List, [], ◌∷◌, Some, None, OnOk, OnErr, false, length};
ghost use Rattle.std.specs.BTreeMap.{is_at};
ghost use Rattle.slab.specs.Slab.{get};
ghost use Rattle.ifmap_ident.specs.declared.identifiers.Identifier.{Identifier};
ghost use Rattle.ifmap_ident.specs.Identifiers.{identifier_order};
ghost use Rattle.ifmap_ident.specs.declared.items.Item.{Item};
ghost use Rattle.ifmap_ident.specs.Items.{IsCanonItem, item_order};
ghost use Rattle.ifmap_pool.specs.Holdings.{IsHeld, Names, holds_at};
ghost use Rattle.ifmap_view.specs.declared.views.LinkSeen.{LinkSeen};
ghost use Rattle.ifmap_graph.specs.Bringing.{BringsShelves};
ghost use Rattle.ifmap_graph.specs.Drafted.{AreBare};
ghost use Rattle.ifmap_graph.specs.Inside.{IsInside};
ghost use Rattle.ifmap_graph.specs.Named.{uses_of, uses_in};
ghost use Rattle.ifmap_graph.specs.Shelved.{HasEmptyShelf, StoredSide, slot_of_item, rows_on_side};
ghost use Rattle.ifmap_graph.specs.Sides.{Sides, list_next, list_now};
ghost use Rattle.ifmap_graph.specs.Turning.{sides_at};
ghost use Rattle.ifmap_graph.specs.Waits.{waits_on};

use crate::ends::{hold_ends, release_ends};
use crate::shelves::{Shelf, Shelves};
use crate::sided::Sided;
use crate::stocks::Stock;
use ifmap_ident::{Identifier, Item};
use ifmap_pool::Pool;
use ifmap_view::LinkSeen;
use std::alloc::{AllocError as NoMemory, Global};

// Room for so many lists; the new ones are empty. After want of memory, some may be there.
pub(crate) fn lengthen(
    links: &mut Vec<Sided<LinkSeen>>,
    alloc: Global,
    n: u64,
) -> Result<(), NoMemory>
    ensures same { (v : ℕ) → sides_at links.new.items v ≡ sides_at links.old.items v }
    ensures longer { length links.old.items ≤ length links.new.items }
    ensures ok { OnOk result (n ≤ length links.new.items) }
{
    'room: while (links.len() as u64) < n {
        links.push(Sided::new(alloc))?;
    }
    Ok(())
}

// A shelf for an item that has none, still empty, that nobody waits for. `ends` is the item once
// more. After want of memory, all is as before but for room.
pub(crate) fn place_shelf(
    names: &mut Pool<Identifier>,
    shelves: &mut Shelves,
    alloc: Global,
    item: Item,
    ends: Item,
) -> Result<(), NoMemory>
    requires inside { (links : List (Sides LinkSeen)) × IsInside names.old (get shelves.old.slots)
        shelves.old.places.entries links }
    requires canon { IsCanonItem item }
    requires same { ends ≡ item }
    requires absent { slot_of_item shelves.old item ≡ None }
    requires room { 2 ≤ names.old.spare }
    requires few { (v : ℕ) → holds_at names.old v < 2 ^ 64 - 2 }
    ensures inside { (links : List (Sides LinkSeen)) → names.old.limit ≤ length links
        → IsInside names.old (get shelves.old.slots) shelves.old.places.entries links
        → IsInside names.new (get shelves.new.slots) shelves.new.places.entries links }
    ensures rows { (side : StoredSide) → side (record { now = []; draft = None }) ≡ []
        → rows_on_side side shelves.new ≡ rows_on_side side shelves.old }
    ensures held { OnOk result ((a : Identifier) (count : ℕ)
        → IsHeld identifier_order names.old a count
        → IsHeld identifier_order names.new a (count + uses_of item a)) }
    ensures own { (a : Identifier) (own : ℕ)
        → IsHeld identifier_order names.old a (uses_in shelves.old.places.entries a + own)
        → IsHeld identifier_order names.new a (uses_in shelves.new.places.entries a + own) }
    ensures kept { (v : ℕ) (a : Identifier) → Names identifier_order names.old v a
        → Names identifier_order names.new v a }
    ensures bare { AreBare shelves.old → AreBare shelves.new }
    ensures brought { OnOk result (BringsShelves (item ∷ []) shelves.old shelves.new) }
    ensures none { OnErr result (BringsShelves [] shelves.old shelves.new) }
    ensures err { OnErr result (names.new ≡ names.old) }
{
    shelves.slots.reserve(1)?;
    let at = shelves.slots.vacant_key();
    shelves.places.insert(item, at)?;
    let ends = hold_ends(names, ends);
    shelves.slots.insert_reserved(Shelf {
        ends,
        stored: Stock::new(),
        waits: 0,
    });
    Ok(())
}

// An item's shelf goes, which is empty on both sides, and the numbers of its identifiers are let
// go.
pub(crate) fn remove_shelf(names: &mut Pool<Identifier>, shelves: &mut Shelves, item: &Item)
    requires inside { (links : List (Sides LinkSeen)) × IsInside names.old (get shelves.old.slots)
        shelves.old.places.entries links }
    requires empty { HasEmptyShelf shelves.old item.now }
    ensures inside { (links : List (Sides LinkSeen))
        → IsInside names.old (get shelves.old.slots) shelves.old.places.entries links
        → IsInside names.new (get shelves.new.slots) shelves.new.places.entries links }
    ensures own { (a : Identifier) (own : ℕ)
        → IsHeld identifier_order names.old a (uses_in shelves.old.places.entries a + own)
        → IsHeld identifier_order names.new a (uses_in shelves.new.places.entries a + own) }
    ensures named { (v : ℕ) (a : Identifier) → Names identifier_order names.new v a
        → Names identifier_order names.old v a }
    ensures now { rows_on_side list_now shelves.new ≡ rows_on_side list_now shelves.old }
    ensures next { rows_on_side list_next shelves.new ≡ rows_on_side list_next shelves.old }
    ensures before { (x : Item) (at : ℕ) → slot_of_item shelves.new x ≡ Some at
        → (slot_of_item shelves.old x ≡ Some at)
        × (get shelves.new.slots at ≡ get shelves.old.slots at) }
    ensures others { (x : Item) → is_at (item_order item.now) x ≡ false
        → slot_of_item shelves.new x ≡ slot_of_item shelves.old x }
    ensures taken { waits_on shelves.old item.now ≡ 0
        → BringsShelves (item.now ∷ []) shelves.new shelves.old }
{
    match shelves.places.remove(item) {
        Some(at) => {
            let shelf = shelves.slots.remove(at);
            release_ends(names, shelf.ends);
        }
        None => unreachable!(),
    }
}
