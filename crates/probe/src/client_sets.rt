//! Rows of the sets that a client keeps: a name and what polls told, and the set of that name.
use crate::escapes::text_of;
use crate::polls::items_of;
use ifmap_client::ClientSets;
use ifmap_elem::{Many, Text, canonical};
use ifmap_ident::{Identifier, Item};
use ifmap_search::{Entry, PollItem};
use std::alloc::{AllocError as NoMemory, Global};

/// The answer to a name and what polls told.
pub fn answer_of(alloc: Global, asked: &str) -> Result<String, NoMemory> {
    let (name, told) = asked.split_once(' ').unwrap_or((asked, ""));
    let Some(items) = items_of(alloc, told)? else {
        return String::from_str(alloc, "no poll");
    };
    let sets = sets_of(alloc, &items)?;
    match sets.set_of(&Text::from_str(alloc, name)?) {
        Some(set) => set_text(alloc, set.as_slice()),
        None => String::from_str(alloc, "none"),
    }
}

fn sets_of(alloc: Global, items: &Many<PollItem>) -> Result<ClientSets, NoMemory> {
    let mut sets = ClientSets::new(alloc);
    for item in items.as_slice() {
        sets.take(alloc, item)?;
    }
    Ok(sets)
}

// The entries with commas between them: of each its identifiers and then its element.
fn set_text(alloc: Global, entries: &[Entry]) -> Result<String, NoMemory> {
    if entries.is_empty() {
        return String::from_str(alloc, "empty");
    }
    let mut text = String::new(alloc);
    for (i, entry) in entries.iter().enumerate() {
        if i > 0 {
            text.push_str(", ")?;
        }
        push_entry(alloc, &mut text, entry)?;
    }
    Ok(text)
}

fn push_entry(alloc: Global, text: &mut String, entry: &Entry) -> Result<(), NoMemory> {
    push_item(alloc, text, entry.item.item())?;
    text.push_str(text_of(alloc, entry.element.bytes())?.as_str())
}

fn push_item(alloc: Global, text: &mut String, item: &Item) -> Result<(), NoMemory> {
    match item {
        Item::One(identifier) => push_identifier(alloc, text, identifier),
        Item::Pair(one, other) => {
            push_identifier(alloc, text, one)?;
            push_identifier(alloc, text, other)
        }
    }
}

// The canonical bytes of an identifier, and a space.
fn push_identifier(
    alloc: Global,
    text: &mut String,
    identifier: &Identifier,
) -> Result<(), NoMemory> {
    let bytes = canonical(alloc, &identifier.element(alloc)?)?;
    text.push_str(text_of(alloc, bytes.as_slice())?.as_str())?;
    text.push(' ')
}
