//! The items on which a change may tell something, each beside what the plan does to it.
ghost use Rattle.std.specs.Prelude.{◌≡◌, ◌<◌, ◌+◌, false, true, None, Some, IfOk, IfSome, length, get_or, map};
ghost use Rattle.std.specs.List.{AllByRecursion, list_any};
ghost use Rattle.std.specs.List.Sorted.{IsStrictlySortedBy};
ghost use Rattle.ifmap_delta.specs.Touched.{IsPaired, items_touched, with_no_place};
ghost use Rattle.ifmap_delta.specs.declared.pairing.TouchedItem.{TouchedItem};
ghost use Rattle.ifmap_ident.specs.Items.{item_order, same_item};

use ifmap_ident::Item;
use ifmap_plans::ItemChange;
use std::alloc::{AllocError as NoMemory, Global};

// An item, and the place of its change in the plan, where it has one.
#[derive(Drop)]
pub(crate) struct TouchedItem {
    pub(crate) item: Item,
    pub(crate) place: Option<usize>,
}

impl TouchedItem {
    // Puts a place beside the item.
    fn set_place(&mut self, place: usize)
        ensures item { self.new.item ≡ self.old.item }
        ensures place { self.new.place ≡ Some place }
    {
        self.place = Some(place);
    }
}

// Items with no change beside them.
fn items_without_places(alloc: Global, items: Vec<Item>) -> Result<Vec<TouchedItem>, NoMemory>
    ensures { IfOk result (λ touched. touched.items ≡ map with_no_place items.items) }
{
    let mut touched = Vec::with_capacity(alloc, items.len())?;
    for item in items {
        touched.push(TouchedItem { item, place: None })?;
    }
    Ok(touched)
}

// Where an item stands among some in order, if it does: it is found by halving.
fn find_item(touched: &[TouchedItem], item: &Item) -> Option<usize>
    requires { IsStrictlySortedBy item_order (items_touched touched.now) }
    ensures found { IfSome result (λ i. i < length touched.now) }
    ensures same { IfSome result (λ i. (d : TouchedItem) →
        same_item item.now (get_or touched.now i d).item ≡ true) }
    ensures none { result ≡ None → list_any (λ t. same_item item.now t.item) touched.now ≡ false }
{
    match touched.binary_search_by(|one| one.item.cmp(item)) {
        Ok(at) => Some(at),
        Err(_) => None,
    }
}

// Puts the place of a change beside its item, over that of a later one.
fn put_place(touched: &mut Vec<TouchedItem>, changes: &[ItemChange], place: usize)
    requires rising { IsStrictlySortedBy item_order (items_touched touched.old.items) }
    requires place { place < length changes.now }
    ensures items { items_touched touched.new.items ≡ items_touched touched.old.items }
    ensures paired { AllByRecursion (IsPaired changes.now (place + 1)) touched.old.items
        → AllByRecursion (IsPaired changes.now place) touched.new.items }
{
    match find_item(touched, &changes[place].item) {
        Some(at) => touched[at].set_place(place),
        None => {}
    }
}

// Items in order, each beside the place of the first of some changes that is of it.
pub(crate) fn pair_with_changes(
    alloc: Global,
    items: Vec<Item>,
    changes: &[ItemChange],
) -> Result<Vec<TouchedItem>, NoMemory>
    requires { IsStrictlySortedBy item_order items.items }
    ensures items { IfOk result (λ touched. items_touched touched.items ≡ items.items) }
    ensures paired { IfOk result (λ touched. AllByRecursion (IsPaired changes.now 0)
        touched.items) }
{
    let mut touched = items_without_places(alloc, items)?;
    let mut place = changes.len();
    while place > 0 {
        place -= 1;
        put_place(&mut touched, changes, place);
    }
    Ok(touched)
}
