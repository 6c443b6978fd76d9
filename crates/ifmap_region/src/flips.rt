//! Links that come and links that go.

/// A link that matches in just one of two graphs, whichever end is `a`.
#[derive(Clone, Copy, Debug, PartialEq, Eq)]
pub struct Flip {
    /// One end.
    pub a: u64,
    /// The other end.
    pub b: u64,
    /// Whether the new graph has the link, and not the old one.
    pub added: bool,
}
