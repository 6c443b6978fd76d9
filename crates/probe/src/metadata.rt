//! Rows of metadata: which elements can be published, what is stored of them, what their keys compare,
//! and names of clients.
use crate::documents::{BETWEEN, element_of, no_element, two_elements_of};
use crate::escapes::{bytes_of, text_of};
use crate::signs::signs_of;
use ifmap_elem::{Copied, Element, Equals, Text, canonical};
use ifmap_io::Moment;
use ifmap_meta::{
    Cardinality, ClientName, Life, MetaError, Metadata, Stored, cardinality_of, content,
    content_bytes, is_single, same_type,
};
use std::alloc::{AllocError as NoMemory, Global};

/// The answer to an element: the cardinality that it is published with, or why it is not.
pub fn answer_of(alloc: Global, asked: &str) -> Result<String, NoMemory> {
    let Some(element) = element_of(alloc, asked)? else {
        return no_element(alloc);
    };
    match Metadata::from_element(alloc, element) {
        Ok(metadata) => String::from_str(alloc, cardinality_in(&metadata)),
        Err(MetaError::Invalid) => String::from_str(alloc, "Invalid"),
        Err(MetaError::TooLong) => String::from_str(alloc, "TooLong"),
        Err(MetaError::NoMemory) => Err(NoMemory),
    }
}

// What the metadata say of their cardinality, where their element says so too.
fn cardinality_in(metadata: &Metadata) -> &'static str {
    let single = is_single(&metadata.element);
    match (
        metadata.cardinality,
        cardinality_of(&metadata.element),
        single,
    ) {
        (Cardinality::Single, Some(Cardinality::Single), true) => "singleValue",
        (Cardinality::Multi, Some(Cardinality::Multi), false) => "multiValue",
        _ => "cardinality differs",
    }
}

fn metadata_of(alloc: Global, text: &str) -> Result<Option<Metadata>, NoMemory> {
    match element_of(alloc, text)? {
        Some(element) => metadata_in(alloc, element),
        None => Ok(None),
    }
}

fn metadata_in(alloc: Global, element: Element) -> Result<Option<Metadata>, NoMemory> {
    match Metadata::from_element(alloc, element) {
        Ok(metadata) => Ok(Some(metadata)),
        Err(MetaError::NoMemory) => Err(NoMemory),
        Err(_) => Ok(None),
    }
}

fn no_metadata(alloc: Global) -> Result<String, NoMemory> {
    String::from_str(alloc, "no metadata")
}

/// The answer to two elements: whether one element is published of both.
pub fn alike_of(alloc: Global, asked: &str) -> Result<String, NoMemory> {
    let (one, other) = asked.split_once(BETWEEN).unwrap_or((asked, ""));
    let Some(one) = metadata_of(alloc, one)? else {
        return no_metadata(alloc);
    };
    let Some(other) = metadata_of(alloc, other)? else {
        return no_metadata(alloc);
    };
    let other = other.copy(alloc)?;
    let alike = one.element.equals(&other.element);
    String::from_str(alloc, if alike { "alike" } else { "different" })
}

/// The answer to an element: the canonical bytes of its content.
pub fn content_of(alloc: Global, asked: &str) -> Result<String, NoMemory> {
    match element_of(alloc, asked)? {
        Some(element) => text_of_content(alloc, &element),
        None => no_element(alloc),
    }
}

fn text_of_content(alloc: Global, element: &Element) -> Result<String, NoMemory> {
    let bytes = content_bytes(alloc, element)?;
    if is_content(alloc, element, bytes.as_slice())? {
        text_of(alloc, bytes.as_slice())
    } else {
        String::from_str(alloc, "content differs")
    }
}

// Whether the content of the element has these canonical bytes.
fn is_content(alloc: Global, element: &Element, bytes: &[u8]) -> Result<bool, NoMemory> {
    let content = content(alloc, element)?;
    let printed = canonical(alloc, &content)?;
    Ok(printed.as_slice() == bytes)
}

/// The answer to the name of a client and an element: the canonical bytes of what is stored where this
/// client publishes it a billion seconds after 1970 began.
pub fn stored_of(alloc: Global, asked: &str) -> Result<String, NoMemory> {
    let Some(stored) = stored_in(alloc, asked)? else {
        return no_metadata(alloc);
    };
    let (client, _) = asked.split_once(' ').unwrap_or((asked, ""));
    if stored.publisher.text().as_str() == client {
        text_of_stored(alloc, &stored)
    } else {
        String::from_str(alloc, "publisher differs")
    }
}

const LIFE: Life = Life::Session(7);

fn stored_in(alloc: Global, text: &str) -> Result<Option<Stored>, NoMemory> {
    let (client, text) = text.split_once(' ').unwrap_or((text, ""));
    let Some(client) = client_of(alloc, client)? else {
        return Ok(None);
    };
    let Some(metadata) = metadata_of(alloc, text)? else {
        return Ok(None);
    };
    let Some(moment) = Moment::new(1_000_000_000) else {
        return Ok(None);
    };
    Ok(Some(metadata.stamp(alloc, &client, moment, LIFE)?))
}

// The canonical bytes, or which answer of what is stored does not agree with them.
fn text_of_stored(alloc: Global, stored: &Stored) -> Result<String, NoMemory> {
    let bytes = canonical(alloc, stored.element.element())?;
    if stored.element.bytes() != bytes.as_slice() {
        String::from_str(alloc, "bytes differ")
    } else if stored.size() != bytes.len() as u64 {
        String::from_str(alloc, "size differs")
    } else if stored.life != LIFE {
        String::from_str(alloc, "life differs")
    } else if !is_copied(alloc, stored)? {
        String::from_str(alloc, "copy differs")
    } else if !is_shared(stored)? {
        String::from_str(alloc, "shared it differs")
    } else {
        text_of(alloc, bytes.as_slice())
    }
}

fn is_copied(alloc: Global, stored: &Stored) -> Result<bool, NoMemory> {
    let copy = stored.copy(alloc)?;
    Ok(
        copy.element.bytes() == stored.element.bytes()
            && copy.size() == stored.size()
            && copy.publisher == stored.publisher
            && copy.life == stored.life
            && copy.same_key(stored),
    )
}

fn is_shared(stored: &Stored) -> Result<bool, NoMemory> {
    let again = stored.element.share()?;
    Ok(
        again.bytes() == stored.element.bytes()
            && again.size() == stored.element.size()
            && again.element().name == stored.element.element().name,
    )
}

/// The answer to two pairs of a client and an element: whether what is stored of them has one key, and
/// whether it has one word of keys.
pub fn keys_of(alloc: Global, asked: &str) -> Result<String, NoMemory> {
    let (one, other) = asked.split_once(BETWEEN).unwrap_or((asked, ""));
    let Some(one) = stored_in(alloc, one)? else {
        return no_metadata(alloc);
    };
    let Some(other) = stored_in(alloc, other)? else {
        return no_metadata(alloc);
    };
    let keys = if one.same_key(&other) {
        "one key"
    } else {
        "two keys"
    };
    let words = if one.key_word() == other.key_word() {
        "one word"
    } else {
        "two words"
    };
    format!(in alloc; "{keys}, {words}")
}

/// The answer to two elements: whether they are of one type.
pub fn types_of(alloc: Global, asked: &str) -> Result<String, NoMemory> {
    match two_elements_of(alloc, asked)? {
        Some((one, other)) => {
            String::from_str(
                alloc,
                if same_type(&one, &other) {
                    "one type"
                } else {
                    "two types"
                },
            )
        }
        None => no_element(alloc),
    }
}

/// The answer to a text: the name of a client that it is.
pub fn client_name_of(alloc: Global, asked: &str) -> Result<String, NoMemory> {
    match client_of(alloc, asked)? {
        Some(name) => text_of(alloc, name.text().as_bytes()),
        None => String::from_str(alloc, "no name"),
    }
}

fn client_of(alloc: Global, text: &str) -> Result<Option<ClientName>, NoMemory> {
    match bytes_of(alloc, text)? {
        Some(bytes) => client_in(alloc, bytes.as_slice()),
        None => Ok(None),
    }
}

fn client_in(alloc: Global, bytes: &[u8]) -> Result<Option<ClientName>, NoMemory> {
    match std::str::from_utf8(bytes) {
        Ok(name) => {
            let name = Text::from_str(alloc, name)?;
            Ok(ClientName::new(name))
        }
        Err(_) => Ok(None),
    }
}

/// The answer to names of clients: their order, by the signs of each, as copies of them have it.
pub fn client_order_of(alloc: Global, asked: &str) -> Result<String, NoMemory> {
    let mut names = Vec::new(alloc);
    for text in asked.split(BETWEEN) {
        match client_of(alloc, text)? {
            Some(name) => names.push(name.copy(alloc)?)?,
            None => return String::from_str(alloc, "no name"),
        }
    }
    signs_of(alloc, names.as_slice())
}

/// What the causes say for which an element cannot be published.
pub fn errors(alloc: Global) -> Result<String, NoMemory> {
    format!(in alloc;
        "{}; {}; {}",
        MetaError::Invalid,
        MetaError::TooLong,
        MetaError::NoMemory
    )
}
