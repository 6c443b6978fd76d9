//! Rows of elements and filters: `ELEMENT | TEXT`, whether the element meets the filter, whose prefixes are those in
//! scope there; `ELEMENT` alone for an absent filter.
use crate::escapes::bytes_of;
use crate::filters::{answer_or_place, filter_of};
use ifmap_elem::{Element, Reading};
use ifmap_filter::{Filter, FilterError, meets_optional};
use ifmap_reader::{read, scope_at};
use std::alloc::{AllocError as NoMemory, Global};

// More levels than an element of a row has.
const DEPTH: u32 = 64;

/// The answer to an element and a filter.
pub fn answer_of(alloc: Global, asked: &str) -> Result<String, NoMemory> {
    let (document, filter) = match asked.split_once(" |") {
        Some((document, filter)) => (document, Some(filter)),
        None => (asked, None),
    };
    let Some(document) = bytes_of(alloc, document)? else {
        return String::from_str(alloc, "no bytes");
    };
    let Ok(reading) = read(alloc, document.as_slice(), DEPTH) else {
        return String::from_str(alloc, "no element");
    };
    answer_or_place(alloc, meeting_of(alloc, &reading, filter))
}

fn meeting_of(
    alloc: Global,
    reading: &Reading,
    filter: Option<&str>,
) -> Result<String, FilterError> {
    let word = match filter {
        Some(text) => {
            let filter = filter_of(alloc, &scope_at(alloc, reading, &[])?, text)?;
            answer_to_filter(filter, &reading.root)
        }
        None => answer_to_optional(&None, &reading.root),
    };
    Ok(String::from_str(alloc, word)?)
}

fn answer_to_filter(filter: Filter, element: &Element) -> &'static str {
    let meets = filter.matches(element);
    let filter = Some(filter);
    if meets_optional(&filter, element) != meets {
        return "differs where it is optional";
    }
    answer_to_optional(&filter, element)
}

fn answer_to_optional(filter: &Option<Filter>, element: &Element) -> &'static str {
    if meets_optional(filter, element) {
        "yes"
    } else {
        "no"
    }
}
