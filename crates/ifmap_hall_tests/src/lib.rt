//! Tests of `ifmap_hall` over a small machine.
#![tactic(auto)]

#[cfg(test)]
mod beside;
#[cfg(test)]
mod rows;
#[cfg(test)]
mod runs;
#[cfg(test)]
mod till;
