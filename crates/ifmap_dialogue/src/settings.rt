//! What all of a connection is served with.
use std::alloc::Global;

// Memory, and the clock that tells the moments of events.
#[derive(Drop)]
pub(crate) struct Setting<'a, C> {
    pub(crate) alloc: Global,
    pub(crate) clock: &'a C,
}
