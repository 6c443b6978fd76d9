//! Results of searches, and what a poll is told.
use ifmap_elem::{Copied, Many, Text};
use ifmap_ident::{Code, SharedItem};
use ifmap_meta::SharedElement;
use std::alloc::{AllocError as NoMemory, AllocFailed, Global};
use thiserror::Error;

/// What a search found at one place: an element, and the identifier or link that it is attached to.
#[derive(Debug, Drop)]
pub struct Entry {
    /// The identifier or the link.
    pub item: SharedItem,
    /// The element as it is stored, or as it was notified.
    pub element: SharedElement,
}

impl Copied for Entry {
    fn copy(&self, _alloc: Global) -> Result<Self, NoMemory> {
        Ok(Entry {
            item: self.item.share()?,
            element: self.element.share()?,
        })
    }
}

/// What a search found.
#[derive(Debug, Drop)]
pub struct Found {
    /// In the order of their items, and on one item of the canonical bytes of their elements.
    pub entries: Many<Entry>,
    /// The canonical bytes of the identifiers and elements of the entries, each printed alone, as
    /// `Search::max_size` limits them.
    pub size: u64,
}

impl Copied for Found {
    fn copy(&self, alloc: Global) -> Result<Self, NoMemory> {
        Ok(Found {
            entries: self.entries.copy(alloc)?,
            size: self.size,
        })
    }
}

/// What a poll is told of a subscription, which it names.
#[derive(Debug, Drop)]
pub enum PollItem {
    /// All that it finds as it begins.
    Search {
        name: Text,
        entries: Many<Entry>,
    },
    /// What came.
    Update {
        name: Text,
        entries: Many<Entry>,
    },
    /// What went.
    Delete {
        name: Text,
        entries: Many<Entry>,
    },
    /// What was notified.
    Notify {
        name: Text,
        entries: Many<Entry>,
    },
    /// That it ended, or that all did where none is named, with a note for a reader. For the codes
    /// of results that are too big the note is the size and its limit.
    Error {
        name: Option<Text>,
        code: Code,
        note: Text,
    },
}

impl Copied for PollItem {
    fn copy(&self, alloc: Global) -> Result<Self, NoMemory> {
        match self {
            PollItem::Search { name, entries } => Ok(PollItem::Search {
                name: name.copy(alloc)?,
                entries: entries.copy(alloc)?,
            }),
            PollItem::Update { name, entries } => Ok(PollItem::Update {
                name: name.copy(alloc)?,
                entries: entries.copy(alloc)?,
            }),
            PollItem::Delete { name, entries } => Ok(PollItem::Delete {
                name: name.copy(alloc)?,
                entries: entries.copy(alloc)?,
            }),
            PollItem::Notify { name, entries } => Ok(PollItem::Notify {
                name: name.copy(alloc)?,
                entries: entries.copy(alloc)?,
            }),
            PollItem::Error { name, code, note } => Ok(PollItem::Error {
                name: name.copy(alloc)?,
                code: *code,
                note: note.copy(alloc)?,
            }),
        }
    }
}

/// Why a search is not answered.
#[derive(Debug, Drop, Error)]
pub enum SearchError {
    /// The result has this size, which is greater than the search allows.
    #[error("the result has a size of {size}")]
    TooBig { size: u64 },
    /// Want of memory.
    #[error("out of memory")]
    NoMemory,
}

impl From<NoMemory> for SearchError {
    ghost use Rattle.std.specs.Prelude.{◌≡◌};
    ghost use Rattle.ifmap_search.specs.declared.results.SearchError.TheVariants.{NoMemory};

    ghost from_gives = { λ _ e. e ≡ NoMemory };

    fn from(_: NoMemory) -> Self {
        SearchError::NoMemory
    }
}

impl<T: Drop> From<AllocFailed<T>> for SearchError {
    ghost use Rattle.std.specs.Prelude.{◌≡◌};
    ghost use Rattle.ifmap_search.specs.declared.results.SearchError.TheVariants.{NoMemory};

    ghost from_gives = { λ _ e. e ≡ NoMemory };

    fn from(_: AllocFailed<T>) -> Self {
        SearchError::NoMemory
    }
}
