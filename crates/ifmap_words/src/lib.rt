//! The words of a command line: those that a program is given, which of them are options, the two
//! words that a command takes, and the numbers that words write.
#![tactic(auto)]

pub mod arguments;
pub mod numbers;
pub mod options;
pub mod pairs;

pub use arguments::words_of;
pub use numbers::decimal_number;
pub use options::has_option;
pub use pairs::{Pair, two_words};
