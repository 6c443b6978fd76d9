//! The inside of a graph: shelves by item, the numbers of identifiers, and the links of each
//! number. Each list has a draft of another beside it, so that a change is made and taken back
//! without memory.
#![tactic(auto)]

mod after;
mod bringing;
pub mod changes;
mod committing;
mod counting;
mod drafting;
pub mod drafts;
pub mod ends;
pub mod graph;
mod holds;
mod linking;
mod placing;
mod releasing;
mod reserving;
pub mod row_lists;
mod settling;
pub mod shared;
mod shelf_changes;
pub mod shelves;
pub mod sided;
pub mod spares;
pub mod stocks;
mod turning;
mod undoing;
mod waiting;
pub mod ways;

pub use changes::{Ready, Undo};
pub use drafts::Draft;
pub use ends::ItemEnds;
pub use graph::Graph;
pub use ifmap_plans::Plan;
pub use ifmap_view::View;
pub use row_lists::RowList;
pub use shared::SharedRows;
pub use shelves::{Shelf, Shelves};
pub use sided::Sided;
pub use spares::Spare;
pub use stocks::Stock;
pub use ways::ReplacedList;
