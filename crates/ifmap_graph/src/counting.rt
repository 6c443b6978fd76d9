//! How many links carry something.
ghost use Rattle.std.specs.Prelude.{◌≡◌, ◌<◌, ◌^◌, IsSome, length};
ghost use Rattle.std.specs.List.{AllByRecursion};
ghost use Rattle.slab.specs.Slab.{get};
ghost use Rattle.ifmap_graph.specs.Counted.{count_links, link_once, links_among};
ghost use Rattle.ifmap_graph.specs.Shelved.{AreShelved, list_at, rows_on_side};
ghost use Rattle.ifmap_graph.specs.Sides.{list_now};

use crate::shelves::{Shelf, Shelves};
use ifmap_ident::Item;
use ifmap_view::Row;
use slab::Slab;
use std::collections::btree_map::Range;

// One, where the item is a link that has something on it.
fn count_link(item: &Item, list: &[Row]) -> u64
    ensures { result ≡ link_once item.now list.now }
{
    match item {
        Item::Pair(_, _) if !list.is_empty() => 1,
        _ => 0,
    }
}

// How many of these are links that have something on them.
fn count_entries(entries: Range<'_, Item, usize>, slots: &Slab<Shelf>) -> u64
    requires live { AllByRecursion (λ e. IsSome (get slots.now e.1)) entries }
    requires few { length entries < 2 ^ 64 }
    ensures { result ≡ links_among (λ at. list_at list_now (get slots.now at)) entries.entry }
{
    let mut count = 0;
    for (item, at) in entries {
        count += count_link(item, slots[*at].stored.list_now());
    }
    count
}

impl Shelves {
    /// How many links have something on them. It walks all shelves.
    pub fn links(&self) -> u64
        requires { AreShelved self.now }
        ensures { result ≡ count_links (rows_on_side list_now self.now) }
    {
        count_entries(self.places.range(..), &self.slots)
    }
}
