//! The outside as traits with meanings that contracts name: sources, sinks, links, doors, clocks and
//! moments. Each has a form in memory, which fails at the calls that are listed, and an adapter over
//! the system's.
#![tactic(auto)]

mod calendar;
pub mod clocks;
pub mod doors;
pub mod ends;
pub mod links;
pub mod memory;
pub mod moments;
pub mod statuses;
pub mod std_ends;
pub mod tcp;

pub use clocks::{Clock, MemoryClock, SystemClock};
pub use doors::{Door, MemoryDoor};
pub use ends::{Failed, Sink, Source, send_bytes};
pub use links::{Link, MemoryLink};
pub use memory::{MemorySink, MemorySource};
pub use moments::Moment;
pub use std_ends::{StdSink, StdSource};
pub use tcp::{TcpDoor, TcpLink};
