//! Whether what a poll is told, and what a search found, is the same in a copy, part by part.
use ifmap_elem::{Copied, Equals, Many, Text};
use ifmap_ident::Code;
use ifmap_search::{Entry, Found, PollItem};
use std::alloc::{AllocError as NoMemory, Global};

/// Whether a copy of what a poll is told is the same.
pub fn is_copied(alloc: Global, item: &PollItem) -> Result<bool, NoMemory> {
    let copy = item.copy(alloc)?;
    Ok(same_item(&copy, item))
}

/// Whether a copy of entries that were found, with their size, is the same.
pub fn is_found_copied(alloc: Global, entries: &Many<Entry>, size: u64) -> Result<bool, NoMemory> {
    let found = Found {
        entries: entries.copy(alloc)?,
        size,
    };
    let copy = found.copy(alloc)?;
    Ok(same_entries(&copy.entries, entries) && copy.size == size)
}

#[derive(Clone, Copy, PartialEq, Eq)]
enum Kind {
    Search,
    Update,
    Delete,
    Notify,
    Error,
}

// The kind of what a poll is told, with its name, its entries or none, its code and note or none.
#[derive(Clone, Copy)]
struct Parts<'a> {
    kind: Kind,
    name: Option<&'a Text>,
    entries: Option<&'a Many<Entry>>,
    error: Option<(Code, &'a Text)>,
}

fn parts_of(item: &PollItem) -> Parts<'_> {
    match item {
        PollItem::Search { name, entries } => parts_with(Kind::Search, name, entries),
        PollItem::Update { name, entries } => parts_with(Kind::Update, name, entries),
        PollItem::Delete { name, entries } => parts_with(Kind::Delete, name, entries),
        PollItem::Notify { name, entries } => parts_with(Kind::Notify, name, entries),
        PollItem::Error { name, code, note } => Parts {
            kind: Kind::Error,
            name: name.as_ref(),
            entries: None,
            error: Some((*code, note)),
        },
    }
}

fn parts_with<'a>(kind: Kind, name: &'a Text, entries: &'a Many<Entry>) -> Parts<'a> {
    Parts {
        kind,
        name: Some(name),
        entries: Some(entries),
        error: None,
    }
}

fn same_item(one: &PollItem, other: &PollItem) -> bool {
    let (one, other) = (parts_of(one), parts_of(other));
    let entries = match (one.entries, other.entries) {
        (Some(one), Some(other)) => same_entries(one, other),
        (None, None) => true,
        _ => false,
    };
    entries && one.kind == other.kind && one.name == other.name && one.error == other.error
}

fn same_entries(one: &Many<Entry>, other: &Many<Entry>) -> bool {
    let (one, other) = (one.as_slice(), other.as_slice());
    one.len() == other.len()
        && one
            .iter()
            .zip(other)
            .all(|(one, other)| same_entry(one, other))
}

fn same_entry(one: &Entry, other: &Entry) -> bool {
    one.item.item().equals(other.item.item())
        && one.element.element().equals(other.element.element())
        && one.element.bytes() == other.element.bytes()
}
