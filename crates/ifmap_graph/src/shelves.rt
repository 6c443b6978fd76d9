//! Shelves by item: what is stored on each, and what is to be.
ghost use Rattle.std.specs.Prelude.{◌≡◌, ℕ, None, [], Contains, IfNone, IfSome};
ghost use Rattle.std.specs.List.{AllByRecursion};
ghost use Rattle.slab.specs.Slab.{get};
ghost use Rattle.ifmap_meta.specs.Keys.{HaveOneKey};
ghost use Rattle.ifmap_graph.specs.Shelved.{AreShelved, rows_on_side};
ghost use Rattle.ifmap_graph.specs.Sides.{list_next, list_now};
ghost use Rattle.ifmap_view.specs.Rows.{stored_on};

use crate::ends::ItemEnds;
use crate::stocks::Stock;
use ifmap_ident::Item;
use ifmap_view::Row;
use slab::Slab;
use std::alloc::Global;
use std::collections::BTreeMap;

/// What is stored on an item, the numbers of its identifiers, and how many changes that are out
/// name the item. A shelf that is empty is there only while one does.
#[derive(Drop)]
pub struct Shelf {
    pub ends: ItemEnds,
    pub stored: Stock,
    pub waits: u64,
}

/// Shelves by item.
#[derive(Drop)]
pub struct Shelves {
    pub places: BTreeMap<Item, usize>,
    pub slots: Slab<Shelf>,
}

impl Shelves {
    /// None. It takes no memory.
    pub fn new(alloc: Global) -> Shelves
        ensures shelved { AreShelved result }
        ensures empty { result.places.entries ≡ [] }
        ensures vacant { (at : ℕ) → get result.slots at ≡ None }
    {
        Shelves {
            places: BTreeMap::new(alloc),
            slots: Slab::new(alloc),
        }
    }

    /// What is stored on an item, in order.
    pub fn rows_at(&self, item: &Item) -> &[Row]
        requires { AreShelved self.now }
        ensures { result.now ≡ stored_on item.now (rows_on_side list_now self.now) }
    {
        match self.places.get(item) {
            Some(at) => self.slots[*at].stored.list_now(),
            None => &[],
        }
    }

    /// The row on an item that has the key of this one, where there is one.
    pub fn row_with_key(&self, item: &Item, row: &Row) -> Option<&Row>
        requires { AreShelved self.now }
        ensures found { IfSome result (λ found.
            Contains (stored_on item.now (rows_on_side list_now self.now)) found.now
            × HaveOneKey row.now found.now) }
        ensures none { IfNone result (AllByRecursion (λ s. HaveOneKey row.now s → ⊥)
            (stored_on item.now (rows_on_side list_now self.now))) }
    {
        match self.places.get(item) {
            Some(at) => self.slots[*at].stored.row_with_key(row),
            None => None,
        }
    }

    /// The same as what is stored, as it is to be.
    pub fn next_at(&self, item: &Item) -> &[Row]
        requires { AreShelved self.now }
        ensures { result.now ≡ stored_on item.now (rows_on_side list_next self.now) }
    {
        match self.places.get(item) {
            Some(at) => self.slots[*at].stored.list_next(),
            None => &[],
        }
    }
}
