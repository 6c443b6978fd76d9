//! Rows of two filters, `SCOPE TEXT | TEXT`: the namespaces of both, whether those of the first serve the second, and
//! whether a copy of the first is the second.
use crate::filters::{answer_or_place, filter_of, scope_of};
use ifmap_elem::{Copied, Equals, Many, Text};
use ifmap_filter::{Filter, FilterError};
use std::alloc::{AllocError as NoMemory, Global};

#[derive(Drop)]
struct Pair {
    first: Filter,
    second: Filter,
}

fn pair_of(alloc: Global, asked: &str) -> Result<Pair, FilterError> {
    let (scope, texts) = asked.split_once(' ').unwrap_or((asked, ""));
    let (first, second) = texts.split_once('|').unwrap_or((texts, ""));
    let scope = scope_of(alloc, scope)?;
    let first = filter_of(alloc, &scope, first)?;
    let second = filter_of(alloc, &scope, second)?;
    Ok(Pair { first, second })
}

/// The answer to two filters: their namespaces in one list.
pub fn spaces_of(alloc: Global, asked: &str) -> Result<String, NoMemory> {
    answer_or_place(alloc, spaces_of_pair(alloc, asked))
}

fn spaces_of_pair(alloc: Global, asked: &str) -> Result<String, FilterError> {
    let pair = pair_of(alloc, asked)?;
    let spaces = pair.first.spaces(alloc)?;
    let spaces = pair.second.add_spaces(alloc, spaces)?;
    Ok(joined(alloc, &spaces)?)
}

// The texts with commas between them, `-` where there are none.
fn joined(alloc: Global, texts: &Many<Text>) -> Result<String, NoMemory> {
    let Some(first) = texts.first() else {
        return String::from_str(alloc, "-");
    };
    let mut all = String::from_str(alloc, first.as_str())?;
    for text in texts.iter().skip(1) {
        all.push(',')?;
        all.push_str(text.as_str())?;
    }
    Ok(all)
}

/// The answer to two filters: whether the namespaces of the first serve the second.
pub fn service_of(alloc: Global, asked: &str) -> Result<String, NoMemory> {
    answer_or_place(alloc, service_in_pair(alloc, asked))
}

fn service_in_pair(alloc: Global, asked: &str) -> Result<String, FilterError> {
    let pair = pair_of(alloc, asked)?;
    let spaces = pair.first.spaces(alloc)?;
    yes_or_no(alloc, pair.second.has_spaces(&spaces))
}

/// The answer to two filters: whether a copy of the first is the second.
pub fn copy_of(alloc: Global, asked: &str) -> Result<String, NoMemory> {
    answer_or_place(alloc, copy_in_pair(alloc, asked))
}

fn copy_in_pair(alloc: Global, asked: &str) -> Result<String, FilterError> {
    let pair = pair_of(alloc, asked)?;
    let copy = pair.first.copy(alloc)?;
    yes_or_no(alloc, copy.equals(&pair.second))
}

fn yes_or_no(alloc: Global, answer: bool) -> Result<String, FilterError> {
    Ok(String::from_str(alloc, if answer { "yes" } else { "no" })?)
}
