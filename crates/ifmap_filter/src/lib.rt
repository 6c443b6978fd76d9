//! Filters of searches, subscriptions and deletes: tests of an element's name, its attributes and
//! its children, joined by `and` and `or`. `parse` reads one from text, `print` writes it, `spaces`
//! gives the namespaces that a print needs, and `matches` tells whether an element meets it.
#![tactic(auto)]

pub mod errors;
pub mod filters;
pub mod holding;
pub mod laws;
mod lexing;
pub mod matching;
mod naming;
pub mod parsing;
pub mod printing;
mod progress;
mod raw_tokens;
pub mod spaces;
pub mod tokens;

pub use errors::FilterError;
pub use filters::{Filter, Predicate, Test};
pub use ifmap_prefixes::{Declarations, Prefixes};
pub use matching::meets_optional;
