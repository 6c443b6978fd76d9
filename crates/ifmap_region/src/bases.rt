//! What rows are set over.

use crate::rows::MarkRows;

// What rows stand over while marks are set: the marks of a region, the most links of a walk, and
// the graph along which it goes.
#[derive(Drop)]
pub(crate) struct Basis<'a, G> {
    pub(crate) base: &'a MarkRows,
    pub(crate) top: u32,
    pub(crate) graph: &'a G,
}
