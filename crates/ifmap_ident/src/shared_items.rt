//! Items that stand in several places at once.
ghost use Rattle.std.specs.Prelude.{◌≡◌, ◌-◌, ◌^◌, min, IfOk};
ghost use Rattle.ifmap_ident.specs.Items.{item_size};

use crate::items::Item;
use ifmap_elem::Copied;
use std::alloc::{AllocError as NoMemory, Global};
use std::marker::Model;
use std::sync::Arc;

// An item with its size, which is computed once.
#[derive(Debug, Drop)]
struct Measured {
    item: Item,
    size: u64,
    ghost sized: { size ≡ min (item_size item) (2 ^ 64 - 1) },
}

/// An item that is shared and never changed. Contracts see the item.
#[derive(Debug, Drop)]
pub struct SharedItem(Arc<Measured>);

impl Model for SharedItem {
    ghost use Rattle.std.specs.Arc.{arc_value};
    ghost use Rattle.ifmap_ident.specs.contracts.items.Item as the_item;
    ghost use Rattle.ifmap_ident.specs.declared.items.Item.{Item};

    ghost Value = { Item };

    ghost coded = { the_item.the_row.coded };

    ghost view = { λ shared. (arc_value shared.0).item };
}

impl SharedItem {
    /// The item, to be shared. The one error is want of memory.
    pub fn new(alloc: Global, item: Item) -> Result<SharedItem, NoMemory>
        ensures { IfOk result (λ shared. shared ≡ item) }
    {
        let size = item.size();
        Ok(SharedItem(Arc::new(alloc, Measured { item, size })?))
    }

    /// The same item once more: nothing is copied. It may fail.
    pub fn share(&self) -> Result<SharedItem, NoMemory>
        ensures { IfOk result (λ shared. shared ≡ self.now) }
    {
        Ok(SharedItem(Arc::try_clone(&self.0)?))
    }

    /// The item. It takes no memory.
    pub fn item(&self) -> &Item
        ensures { result.now ≡ self.now }
    {
        &self.0.item
    }

    /// How many canonical bytes its identifiers have together; at most 2^64 - 1. It takes no memory.
    pub fn size(&self) -> u64
        ensures { result ≡ min (item_size self.now) (2 ^ 64 - 1) }
    {
        self.0.size
    }
}

impl Copied for SharedItem {
    fn copy(&self, _alloc: Global) -> Result<Self, NoMemory> {
        self.share()
    }
}
