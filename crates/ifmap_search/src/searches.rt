//! Searches.
use ifmap_elem::{Copied, Many};
use ifmap_filter::Filter;
use ifmap_ident::{Identifier, Kind};
use std::alloc::{AllocError as NoMemory, Global};

/// What a search asks for: what walks along matching links from an identifier reach (IF-MAP binding
/// for SOAP 2.2, search).
#[derive(Debug, Drop)]
pub struct Search {
    /// Where each walk begins. It is reached whatever its kind.
    pub start: Identifier,
    /// Which links match: those on which some element meets it. All do where there is no filter,
    /// and none do where it has no tests.
    pub match_links: Option<Filter>,
    /// The most links of a walk: 0 where a request names none, so that the start alone is reached.
    pub max_depth: u32,
    /// The greatest size of a result, in the canonical bytes of the identifiers and elements of its
    /// entries: 100,000 where a request names none, and never more than 50,000,000.
    pub max_size: u64,
    /// Which elements are in the result: those that meet it. All are where there is no filter, and
    /// none are where it has no tests.
    pub result_filter: Option<Filter>,
    /// The kinds of identifiers from which no walk goes on, the start too; by the kind alone, and
    /// not by the type of an identity or of an address. They are reached all the same.
    pub terminal: Many<Kind>,
}

impl Copied for Search {
    fn copy(&self, alloc: Global) -> Result<Self, NoMemory> {
        Ok(Search {
            start: self.start.copy(alloc)?,
            match_links: self.match_links.copy(alloc)?,
            max_depth: self.max_depth,
            max_size: self.max_size,
            result_filter: self.result_filter.copy(alloc)?,
            terminal: self.terminal.copy(alloc)?,
        })
    }
}
