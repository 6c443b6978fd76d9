//! Rows of sizes: of what a poll is told, and of a result that is too big.
use crate::copies::{is_copied, is_found_copied};
use crate::polls::items_of;
use ifmap_elem::Many;
use ifmap_search::{Entry, PollItem, SearchError, poll_size};
use ifmap_words::decimal_number;
use std::alloc::{AllocError as NoMemory, Global};

/// The answer to what a poll is told: its size, where copies are the same.
pub fn answer_of(alloc: Global, asked: &str) -> Result<String, NoMemory> {
    let Some(items) = items_of(alloc, asked)? else {
        return String::from_str(alloc, "no poll");
    };
    match items.first() {
        Some(item) => size_text(alloc, item),
        None => String::from_str(alloc, "nothing"),
    }
}

fn size_text(alloc: Global, item: &PollItem) -> Result<String, NoMemory> {
    if !is_copied(alloc, item)? {
        return String::from_str(alloc, "has a copy that differs");
    }
    let size = poll_size(item);
    match entries_of(item) {
        Some(entries) if !is_found_copied(alloc, entries, size)? => {
            String::from_str(alloc, "has entries whose copy differs")
        }
        _ => format!(in alloc; "{size}"),
    }
}

fn entries_of(item: &PollItem) -> Option<&Many<Entry>> {
    match item {
        PollItem::Search { entries, .. } => Some(entries),
        PollItem::Update { entries, .. } => Some(entries),
        PollItem::Delete { entries, .. } => Some(entries),
        PollItem::Notify { entries, .. } => Some(entries),
        PollItem::Error { .. } => None,
    }
}

/// The answer to the size of a result that is too big: how that is told.
pub fn refusal_of(alloc: Global, asked: &str) -> Result<String, NoMemory> {
    match decimal_number(asked) {
        Some(size) => {
            let error = SearchError::TooBig { size };
            format!(in alloc; "{error}")
        }
        None => String::from_str(alloc, "no number"),
    }
}
