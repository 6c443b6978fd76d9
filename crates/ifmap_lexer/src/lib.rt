//! Cuts the bytes of a document into tokens, one at a time.
#![tactic(auto)]

mod characters;
mod declaration;
mod errors;
mod kinds;
pub mod laws;
pub mod lexing;
mod names;
mod quoting;
mod references;
mod splitting;
mod tags;
mod tokens;
mod values;

pub use errors::LexError;
pub use lexing::{Lexed, end_tag_length, token_of};
pub use names::{is_name_character, is_name_start};
