//! Reads the bytes of a document: `read` answers the element that they spell, in one pass over its
//! tokens and with a stack of the elements that are open; `scope_at` answers which prefixes are in
//! scope at an element that was read.
#![tactic(auto)]

mod allowed_tags;
mod bindings;
mod declarations;
mod differing;
pub mod errors;
pub mod laws;
mod next_token;
mod open_elements;
mod progress;
pub mod reading;
pub mod scoping;

pub use errors::ReadError;
pub use ifmap_lexer::{is_name_character, is_name_start};
pub use reading::read;
pub use scoping::{Scope, scope_at};
