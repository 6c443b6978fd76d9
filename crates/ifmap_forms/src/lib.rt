//! Forms of messages: what the values of attributes mean, and the readers of attributes, of
//! prefixes in scope, and of identifiers and lists in an element of a message. Each reader
//! answers a value, or the code of the first defect in the order in which the parts of an element
//! are checked.
#![tactic(auto)]

pub mod errors;
pub mod gathering;
pub mod identifiers;
pub mod kinds;
pub mod lists;
pub mod members;
pub mod numbers;
pub mod parts;
pub mod places;
pub mod values;

pub use errors::FormError;
pub use ifmap_filter::laws::{text_is_filter_or_stops, text_is_one_filter};
pub use ifmap_filter::{Declarations, Filter, meets_optional};
pub use places::MessagePlace;
