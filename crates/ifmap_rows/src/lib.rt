//! What is stored on one item, in its order and with an index by key: it is changed in place, and
//! what has a key is found without going along the rows.
#![tactic(auto)]

mod index;
pub mod keyed;
mod lists;
pub mod rows;

pub use ifmap_plans::{ItemChange, Items, Note, Plan, bytes_of, row_order};
pub use keyed::Keyed;
pub use lists::put_rows;
pub use rows::Rows;
