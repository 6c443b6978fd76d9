//! Rows of identifiers: which elements are identifiers, how these are ordered, and links of two.
use crate::documents::{BETWEEN, element_of, no_element};
use crate::escapes::text_of;
use crate::signs::signs_of;
use ifmap_elem::{Copied, Element, Equals, Many, canonical};
use ifmap_ident::{IdentError, Identifier, IdentityType, Item, SharedItem};
use std::alloc::{AllocError as NoMemory, Global};

/// The answer to an element: the canonical bytes of its identifier, or why it is none.
pub fn answer_of(alloc: Global, asked: &str) -> Result<String, NoMemory> {
    let Some(element) = element_of(alloc, asked)? else {
        return no_element(alloc);
    };
    match Identifier::from_element(alloc, &element) {
        Ok(identifier) => answer_for(alloc, &element, &identifier),
        Err(IdentError::WrongKind) => String::from_str(alloc, "WrongKind"),
        Err(IdentError::Invalid) => String::from_str(alloc, "Invalid"),
        Err(IdentError::TooLong) => String::from_str(alloc, "TooLong"),
        Err(IdentError::NoMemory) => Err(NoMemory),
    }
}

// The canonical bytes, or which answer of the identifier does not agree with them.
fn answer_for(
    alloc: Global,
    element: &Element,
    identifier: &Identifier,
) -> Result<String, NoMemory> {
    let made = identifier.element(alloc)?;
    let bytes = canonical(alloc, &made)?;
    if identifier.size() != bytes.len() as u64 {
        String::from_str(alloc, "size differs")
    } else if identifier.kind().name() != element.name.local.as_str() {
        String::from_str(alloc, "kind differs")
    } else if !is_read_back(alloc, &made, identifier)? {
        String::from_str(alloc, "read back it differs")
    } else if !is_copied(alloc, identifier)? {
        String::from_str(alloc, "copy differs")
    } else if !is_shared(alloc, identifier)? {
        String::from_str(alloc, "shared it differs")
    } else {
        text_of(alloc, bytes.as_slice())
    }
}

fn is_read_back(alloc: Global, made: &Element, identifier: &Identifier) -> Result<bool, NoMemory> {
    match identifier_in(alloc, made)? {
        Some(again) => Ok(again == *identifier),
        None => Ok(false),
    }
}

fn is_copied(alloc: Global, identifier: &Identifier) -> Result<bool, NoMemory> {
    let copy = identifier.copy(alloc)?;
    Ok(copy.equals(identifier) && copy == *identifier)
}

// Whether the item of the identifier is the same once it was shared, shared again and copied.
fn is_shared(alloc: Global, identifier: &Identifier) -> Result<bool, NoMemory> {
    let shared = SharedItem::new(alloc, Item::One(identifier.copy(alloc)?))?;
    let again = shared.share()?;
    let copy = again.copy(alloc)?;
    Ok(
        shared.item() == again.item()
            && shared.item() == copy.item()
            && copy.size() == identifier.size(),
    )
}

/// The answer to elements: the order of their identifiers, by the signs of each.
pub fn order_of(alloc: Global, asked: &str) -> Result<String, NoMemory> {
    let mut identifiers = Vec::new(alloc);
    for text in asked.split(BETWEEN) {
        match identifier_of(alloc, text)? {
            Some(identifier) => identifiers.push(identifier)?,
            None => return no_identifier(alloc),
        }
    }
    signs_of(alloc, identifiers.as_slice())
}

fn identifier_of(alloc: Global, text: &str) -> Result<Option<Identifier>, NoMemory> {
    match element_of(alloc, text)? {
        Some(element) => identifier_in(alloc, &element),
        None => Ok(None),
    }
}

fn identifier_in(alloc: Global, element: &Element) -> Result<Option<Identifier>, NoMemory> {
    match Identifier::from_element(alloc, element) {
        Ok(identifier) => Ok(Some(identifier)),
        Err(IdentError::NoMemory) => Err(NoMemory),
        Err(_) => Ok(None),
    }
}

fn no_identifier(alloc: Global) -> Result<String, NoMemory> {
    String::from_str(alloc, "no identifier")
}

/// The answer to two elements: the canonical bytes of the identifiers of their link, the smaller first.
pub fn link_of(alloc: Global, asked: &str) -> Result<String, NoMemory> {
    let (one, other) = asked.split_once(BETWEEN).unwrap_or((asked, ""));
    let Some(one) = identifier_of(alloc, one)? else {
        return no_identifier(alloc);
    };
    let Some(other) = identifier_of(alloc, other)? else {
        return no_identifier(alloc);
    };
    match Item::pair(one, other) {
        Some(link) => text_of_link(alloc, &link),
        None => String::from_str(alloc, "no link"),
    }
}

fn text_of_link(alloc: Global, link: &Item) -> Result<String, NoMemory> {
    match link {
        Item::Pair(first, second) if first < second => text_of_ends(
            alloc,
            first,
            second,
            link.size(),
        ),
        _ => String::from_str(alloc, "order differs"),
    }
}

fn text_of_ends(
    alloc: Global,
    first: &Identifier,
    second: &Identifier,
    size: u64,
) -> Result<String, NoMemory> {
    let first = bytes_of_identifier(alloc, first)?;
    let second = bytes_of_identifier(alloc, second)?;
    if (first.len() as u64).saturating_add(second.len() as u64) != size {
        return String::from_str(alloc, "size differs");
    }
    text_of_both(alloc, first.as_slice(), second.as_slice())
}

fn bytes_of_identifier(alloc: Global, identifier: &Identifier) -> Result<Many<u8>, NoMemory> {
    let element = identifier.element(alloc)?;
    canonical(alloc, &element)
}

fn text_of_both(alloc: Global, first: &[u8], second: &[u8]) -> Result<String, NoMemory> {
    let mut text = text_of(alloc, first)?;
    text.push_str(BETWEEN)?;
    text.push_str(text_of(alloc, second)?.as_str())?;
    Ok(text)
}

/// The answer to the name of a type of identities: the type, and its name.
pub fn identity_type_of(alloc: Global, asked: &str) -> Result<String, NoMemory> {
    match IdentityType::of_name(asked) {
        Some(found) => format!(in alloc; "{found:?} {}", found.name()),
        None => String::from_str(alloc, "none"),
    }
}

/// What the causes say for which an element is no identifier.
pub fn errors(alloc: Global) -> Result<String, NoMemory> {
    format!(in alloc;
        "{}; {}; {}; {}",
        IdentError::WrongKind,
        IdentError::Invalid,
        IdentError::TooLong,
        IdentError::NoMemory
    )
}
