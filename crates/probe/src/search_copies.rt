//! Rows of two searches, `REQUEST | REQUEST`, each as a client sends it: whether a copy of the first is the second.
use ifmap_client::{Line, line_of};
use ifmap_elem::{Copied, Equals};
use ifmap_filter::Filter;
use ifmap_requests::Request;
use ifmap_search::Search;
use std::alloc::{AllocError as NoMemory, Global};

/// The answer to two searches.
pub fn answer_of(alloc: Global, asked: &str) -> Result<String, NoMemory> {
    let (one, other) = asked.split_once(" | ").unwrap_or((asked, ""));
    match (search_of(alloc, one)?, search_of(alloc, other)?) {
        (Some(one), Some(other)) => {
            let copy = one.copy(alloc)?;
            String::from_str(alloc, yes_or_no(same_search(&copy, &other)))
        }
        _ => String::from_str(alloc, "no search"),
    }
}

fn yes_or_no(answer: bool) -> &'static str {
    if answer { "yes" } else { "no" }
}

fn search_of(alloc: Global, written: &str) -> Result<Option<Search>, NoMemory> {
    match line_of(alloc, written.as_bytes())? {
        Some(Line::Request(Request::Search { search, .. })) => Ok(Some(search)),
        _ => Ok(None),
    }
}

fn same_search(one: &Search, other: &Search) -> bool {
    one.start.equals(&other.start)
        && same_filter(&one.match_links, &other.match_links)
        && one.max_depth == other.max_depth
        && one.max_size == other.max_size
        && same_filter(&one.result_filter, &other.result_filter)
        && one.terminal == other.terminal
}

fn same_filter(one: &Option<Filter>, other: &Option<Filter>) -> bool {
    match (one, other) {
        (Some(one), Some(other)) => one.equals(other),
        (None, None) => true,
        _ => false,
    }
}
