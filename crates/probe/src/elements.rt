//! Rows of elements: what documents spell, how elements are printed and compared, and which prefixes are
//! in scope.
use crate::documents::{element_of, no_element, reading_of, two_elements_of};
use crate::escapes::{bytes_of, text_of};
use ifmap_elem::{Copied, Element, Many, Reading, Text, canonical, same, written};
use ifmap_reader::{ReadError, read, scope_at};
use std::alloc::{AllocError as NoMemory, Global};

/// The answer to levels that are allowed and a document: what it spells, or the place where it stops.
pub fn read_of(alloc: Global, asked: &str) -> Result<String, NoMemory> {
    let (depth, text) = asked.split_once(' ').unwrap_or((asked, ""));
    let Ok(depth) = depth.parse::<u32>() else {
        return String::from_str(alloc, "no number of levels");
    };
    match bytes_of(alloc, text)? {
        Some(document) => outcome_of(alloc, document.as_slice(), depth),
        None => String::from_str(alloc, "no bytes"),
    }
}

fn outcome_of(alloc: Global, document: &[u8], depth: u32) -> Result<String, NoMemory> {
    match read(alloc, document, depth) {
        Ok(reading) => text_of(alloc, canonical(alloc, &reading.root)?.as_slice()),
        Err(ReadError::Unreadable { at }) => format!(in alloc; "Unreadable {at}"),
        Err(ReadError::TooDeep { at }) => format!(in alloc; "TooDeep {at}"),
        Err(ReadError::NoMemory) => Err(NoMemory),
    }
}

/// The answer to namespaces with commas between, and a document: its element, printed with these
/// namespaces declared.
pub fn written_of(alloc: Global, asked: &str) -> Result<String, NoMemory> {
    let (spaces, text) = asked.split_once(' ').unwrap_or((asked, ""));
    let spaces = spaces_of(alloc, spaces)?;
    match element_of(alloc, text)? {
        Some(element) => text_of(alloc, written(alloc, &element, &spaces)?.as_slice()),
        None => no_element(alloc),
    }
}

pub fn spaces_of(alloc: Global, words: &str) -> Result<Many<Text>, NoMemory> {
    let mut spaces = Vec::new(alloc);
    for word in words.split(',') {
        spaces.push(Text::from_str(alloc, word)?)?;
    }
    Ok(Many(spaces))
}

/// The answer to two documents: whether their elements are the same.
pub fn same_of(alloc: Global, asked: &str) -> Result<String, NoMemory> {
    match two_elements_of(alloc, asked)? {
        Some((one, other)) => yes_or_no(alloc, same(&one, &other)),
        None => no_element(alloc),
    }
}

/// The answer to a word and a document: whether its element has this name, in no namespace.
pub fn bare_of(alloc: Global, asked: &str) -> Result<String, NoMemory> {
    let (local, text) = asked.split_once(' ').unwrap_or((asked, ""));
    match element_of(alloc, text)? {
        Some(element) => yes_or_no(alloc, element.name.is_bare(local)),
        None => no_element(alloc),
    }
}

fn yes_or_no(alloc: Global, holds: bool) -> Result<String, NoMemory> {
    String::from_str(alloc, if holds { "yes" } else { "no" })
}

/// The answer to the path of an element, such as `/0/2`, and a document: the prefixes in scope there.
pub fn scope_of(alloc: Global, asked: &str) -> Result<String, NoMemory> {
    let (path, text) = asked.split_once(' ').unwrap_or((asked, ""));
    let Some(path) = path_of(alloc, path)? else {
        return String::from_str(alloc, "no path");
    };
    match reading_of(alloc, text)? {
        Some(reading) => prefixes_of(alloc, &reading, path.as_slice()),
        None => no_element(alloc),
    }
}

fn path_of(alloc: Global, text: &str) -> Result<Option<Vec<u32>>, NoMemory> {
    let mut path = Vec::new(alloc);
    for step in text.split('/').filter(|step| !step.is_empty()) {
        let Ok(step) = step.parse::<u32>() else {
            return Ok(None);
        };
        path.push(step)?;
    }
    Ok(Some(path))
}

// The prefixes, each with its namespace, as a copy of the scope has them.
fn prefixes_of(alloc: Global, reading: &Reading, path: &[u32]) -> Result<String, NoMemory> {
    let scope = scope_at(alloc, reading, path)?.copy(alloc)?;
    let mut out = String::new(alloc);
    for (prefix, space) in scope.rows.iter() {
        write!(out, "{}={};", prefix.as_str(), space.as_str())?;
    }
    Ok(out)
}
