//! Tests of the pool, of regions and of the counter of steps.
#![tactic(auto)]

#[cfg(test)]
mod counters;
#[cfg(test)]
mod pools;
#[cfg(test)]
mod regions;
