//! Plans: what a change of a graph takes from each item and puts there, and what it tells besides. Whoever
//! makes a plan, whoever carries it out and whoever tells others of it speak by the same words.
#![tactic(auto)]

pub mod items;
pub mod lists;
pub mod plans;

pub use ifmap_view::{Row, View, share_rows};
pub use items::Items;
pub use lists::{bytes_of, place_of, put_row, row_order};
pub use plans::{ItemChange, Note, Plan};
