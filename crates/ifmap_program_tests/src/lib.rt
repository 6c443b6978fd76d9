//! Tests of what runs, that need code inside the process: the core and what it keeps, desks over books and
//! halls, connections and workers, scripts and drills whose reads and writes fail. What a program can be
//! asked from outside stands in `tests/` at the top.
#![tactic(auto)]

#[cfg(test)]
mod asks;
#[cfg(test)]
mod bodies;
#[cfg(test)]
mod books;
#[cfg(test)]
mod client_scripts;
#[cfg(test)]
mod connections;
pub mod desk;
#[cfg(test)]
mod dialogues;
#[cfg(test)]
mod doors;
#[cfg(test)]
mod drills;
#[cfg(test)]
mod events;
#[cfg(test)]
mod fields;
#[cfg(test)]
mod gates;
#[cfg(test)]
mod halls;
#[cfg(test)]
mod long;
#[cfg(test)]
mod numbers;
#[cfg(test)]
mod pacing;
#[cfg(test)]
mod posts;
#[cfg(test)]
mod repeating;
#[cfg(test)]
mod replays;
#[cfg(test)]
mod scripts;
#[cfg(test)]
mod servers;
#[cfg(test)]
mod workers;
