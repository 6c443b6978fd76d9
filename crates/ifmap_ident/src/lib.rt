//! What metadata stands on: identifiers, and items of one identifier or of two. They are compared and
//! measured by the canonical bytes of their elements, which are not made for it. The error codes of
//! the protocol stand here too, since every crate above tells them.
#![tactic(auto)]

pub mod codes;
mod equality;
pub mod errors;
pub mod identifiers;
mod identities;
pub mod items;
pub mod kinds;
pub mod laws;
mod names;
mod optionals;
mod ordering;
mod parts;
mod reading;
pub mod shared_items;
mod sizes;
mod writing;
mod written;

pub use codes::Code;
pub use errors::IdentError;
pub use identifiers::Identifier;
pub use ifmap_reader::laws::{
    bytes_spell_an_element_or_none, what_bytes_declare_fits, what_bytes_spell_fits,
};
pub use ifmap_reader::{ReadError, read};
pub use items::Item;
pub use kinds::{IdentityType, Kind};
pub use parts::value_of;
pub use shared_items::SharedItem;
