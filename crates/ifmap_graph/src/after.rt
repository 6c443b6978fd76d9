//! Items in order.
ghost use Rattle.std.specs.Prelude.{◌≡◌, ◌+◌, IfSome, IfNone, IsSome, List, Option, option_copied};
ghost use Rattle.std.specs.List.{AllByRecursion};
ghost use Rattle.slab.specs.Slab.{get};
ghost use Rattle.ifmap_ident.specs.Items.{IsCanonItem};
ghost use Rattle.ifmap_plans.specs.After.{IsNextItem, NoItem};
ghost use Rattle.ifmap_graph.specs.After.{AreEmpty, IsFirstFull, entries_after};
ghost use Rattle.ifmap_graph.specs.Shelved.{AreShelved, list_at, rows_on_side};
ghost use Rattle.ifmap_graph.specs.Sides.{list_now};

use crate::shelves::{Shelf, Shelves};
use ifmap_ident::Item;
use ifmap_steps::Steps;
use slab::Slab;
use std::collections::btree_map::Range;
use std::ops::Bound;
use std::sync::ledger::Ledger;

// The first item whose shelf is not empty.
fn first_item<'a>(entries: Range<'a, Item, usize>, slots: &Slab<Shelf>) -> Option<&'a Item>
    requires { AllByRecursion (λ e. IsSome (get slots.now e.1)) entries }
    ensures found { IfSome result (λ item.
        IsFirstFull (λ at. list_at list_now (get slots.now at)) entries.entry item.now) }
    ensures none { IfNone result
        (AreEmpty (λ at. list_at list_now (get slots.now at)) entries.entry) }
{
    for (item, at) in entries {
        if !slots[*at].stored.list_now().is_empty() {
            return Some(item);
        }
    }
    None
}

// The first item above another, or of all, whose shelf is not empty.
fn first_after<'a>(shelves: &'a Shelves, after: Option<&Item>) -> Option<&'a Item>
    requires { AreShelved shelves.now }
    ensures found { IfSome result
        (λ item. IsFirstFull (λ at. list_at list_now (get shelves.now.slots at))
        (entries_after (option_copied after.entry) shelves.now.places.entries) item.now) }
    ensures none { IfNone result (AreEmpty (λ at. list_at list_now (get shelves.now.slots at))
        (entries_after (option_copied after.entry) shelves.now.places.entries)) }
{
    let slots = &shelves.slots;
    match after {
        Some(item) => first_item(
            shelves
                .places
                .range((Bound::Excluded(item), Bound::Unbounded)),
            slots,
        ),
        None => first_item(shelves.places.range(..), slots),
    }
}

impl Shelves {
    /// The least item above one, or of all, that carries an attachment. Each call is one step.
    pub fn item_after<L: Ledger>(&self, item: Option<&Item>, steps: &mut Steps<L>) -> Option<&Item>
        requires { AreShelved self.now }
        ensures found { IfSome result (λ found.
            IsNextItem (rows_on_side list_now self.now) (option_copied item.entry) found.now) }
        ensures canon { IfSome result (λ found. IsCanonItem found.now) }
        ensures none { IfNone result
            (NoItem (rows_on_side list_now self.now) (option_copied item.entry)) }
        ensures step { steps.new ≡ steps.old + 1 }
    {
        steps.tick();
        first_after(self, item)
    }
}
