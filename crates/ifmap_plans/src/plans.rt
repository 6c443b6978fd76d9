//! Plans.
use ifmap_elem::Many;
use ifmap_ident::{Item, SharedItem};
use ifmap_meta::SharedElement;
use ifmap_view::Row;

/// What a change takes from an item, and what it puts there. What stays is in neither list.
#[derive(Drop)]
pub struct ItemChange {
    /// The identifier or link.
    pub item: Item,
    /// What goes, in order.
    pub removed: Many<Row>,
    /// What comes, in order.
    pub added: Many<Row>,
}

/// An element that is told to those whose subscriptions match, and kept nowhere.
#[derive(Debug, Drop)]
pub struct Note {
    /// The identifier or link that it is told on.
    pub item: SharedItem,
    /// The element, with its stamps.
    pub element: SharedElement,
}

/// A change of a graph: of each item that changes, once, and what is notified, in its order.
#[derive(Drop)]
pub struct Plan {
    pub changes: Many<ItemChange>,
    pub notes: Many<Note>,
}
