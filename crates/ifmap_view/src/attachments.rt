//! Attachments.

use ifmap_elem::Copied;
use ifmap_ident::Item;
use ifmap_meta::Stored;
use std::alloc::{AllocError as NoMemory, Global};

/// Metadata on an item.
#[derive(Debug, Drop)]
pub struct Attachment {
    pub item: Item,
    pub stored: Stored,
}

impl Copied for Attachment {
    fn copy(&self, alloc: Global) -> Result<Self, NoMemory> {
        Ok(Attachment {
            item: self.item.copy(alloc)?,
            stored: self.stored.copy(alloc)?,
        })
    }
}
