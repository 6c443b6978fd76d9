//! Documents as rows are given them: bytes in a line of text, and the element that they spell.
use crate::escapes::bytes_of;
use ifmap_elem::{Element, Reading};
use ifmap_reader::{ReadError, read};
use std::alloc::{AllocError as NoMemory, Global};

// More levels than have the rows that are not asked with a number of them.
const DEPTH: u32 = 64;

/// What stands between the documents of a row that has more than one.
pub const BETWEEN: &str = " | ";

/// The document of this text as it is read; none where it cannot be read.
pub fn reading_of(alloc: Global, text: &str) -> Result<Option<Reading>, NoMemory> {
    let Some(document) = bytes_of(alloc, text)? else {
        return Ok(None);
    };
    match read(alloc, document.as_slice(), DEPTH) {
        Ok(reading) => Ok(Some(reading)),
        Err(ReadError::NoMemory) => Err(NoMemory),
        Err(_) => Ok(None),
    }
}

/// The element that the document of this text spells; none where it spells none.
pub fn element_of(alloc: Global, text: &str) -> Result<Option<Element>, NoMemory> {
    match reading_of(alloc, text)? {
        Some(reading) => Ok(Some(reading.root)),
        None => Ok(None),
    }
}

/// The elements of the two documents of this text; none where one of them is missing.
pub fn two_elements_of(alloc: Global, text: &str) -> Result<Option<(Element, Element)>, NoMemory> {
    let Some((one, other)) = text.split_once(BETWEEN) else {
        return Ok(None);
    };
    let Some(one) = element_of(alloc, one)? else {
        return Ok(None);
    };
    match element_of(alloc, other)? {
        Some(other) => Ok(Some((one, other))),
        None => Ok(None),
    }
}

/// What is answered to a row whose documents are not read.
pub fn no_element(alloc: Global) -> Result<String, NoMemory> {
    String::from_str(alloc, "no element")
}
