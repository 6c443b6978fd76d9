//! The prefixes in scope at an element, each found by search among all declarations of a document.
#![tactic(auto)]

pub mod prefixes;
pub mod rows;

pub use ifmap_reader::{Scope, is_name_character, is_name_start};
pub use prefixes::{Declarations, Prefixes};
