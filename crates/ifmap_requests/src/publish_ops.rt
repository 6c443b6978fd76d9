//! What a publish asks for.
use ifmap_elem::{Copied, Many};
use ifmap_forms::Filter;
use ifmap_ident::Item;
use ifmap_meta::Metadata;
use std::alloc::{AllocError as NoMemory, Global};

/// One operation of a publish.
#[derive(Debug, Drop)]
pub enum PublishOp {
    /// Metadata are put on an identifier or a link: for good, or for as long as the session lives.
    Update {
        item: Item,
        elements: Many<Metadata>,
        forever: bool,
    },
    /// Metadata are told to those whose subscriptions match, and kept nowhere.
    Notify {
        item: Item,
        elements: Many<Metadata>,
    },
    /// Metadata that meet the filter go from an identifier or a link: all where there is no filter.
    Delete {
        item: Item,
        filter: Option<Filter>,
    },
}

impl Copied for PublishOp {
    fn copy(&self, alloc: Global) -> Result<Self, NoMemory> {
        match self {
            PublishOp::Update {
                item,
                elements,
                forever,
            } => Ok(PublishOp::Update {
                item: item.copy(alloc)?,
                elements: elements.copy(alloc)?,
                forever: *forever,
            }),
            PublishOp::Notify { item, elements } => Ok(PublishOp::Notify {
                item: item.copy(alloc)?,
                elements: elements.copy(alloc)?,
            }),
            PublishOp::Delete { item, filter } => Ok(PublishOp::Delete {
                item: item.copy(alloc)?,
                filter: filter.copy(alloc)?,
            }),
        }
    }
}
