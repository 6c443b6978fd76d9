//! Tests of graphs: publishes and retractions that are carried out, taken back and given up, beside a plain
//! list with the same rules.
#![tactic(auto)]

#[cfg(test)]
mod carrying;
#[cfg(test)]
mod changes;
#[cfg(test)]
mod comparing;
#[cfg(test)]
mod examples;
#[cfg(test)]
mod facts;
#[cfg(test)]
mod rolling;
#[cfg(test)]
mod rules;
#[cfg(test)]
mod walks;
#[cfg(test)]
mod writing;
