//! Tests of the rows of an item: keys of one word, and changes of many rows.
#![tactic(auto)]

#[cfg(test)]
mod changes;
#[cfg(test)]
mod keys;
#[cfg(test)]
mod makers;
