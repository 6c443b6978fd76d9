//! Tests of sessions: values from worked examples, and that each call succeeds where there is
//! memory.
#![tactic(auto)]

#[cfg(test)]
mod expiring;
#[cfg(test)]
mod lives;
#[cfg(test)]
mod makers;
#[cfg(test)]
mod queues;
