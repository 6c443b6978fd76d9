//! Searches, as the tests name them.
ghost use Rattle.std.specs.Prelude.{IfOk};
ghost use Rattle.ifmap_ident.specs.Canon.{IsIdentifier};

use crate::faults::Fault;
use ifmap_elem::{Many, Text};
use ifmap_filter::Filter;
use ifmap_fresh_tests::places::address_of;
use ifmap_ident::Kind;
use ifmap_reader::Scope;
use ifmap_search::Search;
use std::alloc::{AllocError as NoMemory, Global};

// A search from the address 1.
#[derive(Clone, Copy)]
pub(crate) struct Sought {
    pub(crate) max_depth: u32,
    pub(crate) match_links: Option<&'static str>,
    pub(crate) result_filter: Option<&'static str>,
    pub(crate) terminal: Option<Kind>,
}

// The prefix `u` for the namespace of the tests' elements.
fn scope_of(alloc: Global) -> Result<Scope, NoMemory> {
    let prefix = Text::from_str(alloc, "u")?;
    let space = Text::from_str(alloc, "u")?;
    let mut rows = Vec::new(alloc);
    rows.push((prefix, space))?;
    Ok(Scope { rows: Many(rows) })
}

fn parse(alloc: Global, text: &Text, scope: &Scope) -> Result<Filter, Fault> {
    match Filter::parse(alloc, text, scope) {
        Ok(filter) => Ok(filter),
        Err(_) => Err(Fault::Unread),
    }
}

fn filter_of(alloc: Global, text: &str) -> Result<Filter, Fault> {
    let scope = scope_of(alloc)?;
    let text = Text::from_str(alloc, text)?;
    parse(alloc, &text, &scope)
}

fn filter_in(alloc: Global, text: Option<&str>) -> Result<Option<Filter>, Fault> {
    match text {
        Some(text) => Ok(Some(filter_of(alloc, text)?)),
        None => Ok(None),
    }
}

fn kinds_of(alloc: Global, kind: Option<Kind>) -> Result<Many<Kind>, NoMemory> {
    let mut kinds = Vec::new(alloc);
    if let Some(kind) = kind {
        kinds.push(kind)?;
    }
    Ok(Many(kinds))
}

// The search, whose results may be as large as they are.
pub(crate) fn search_of(alloc: Global, sought: &Sought) -> Result<Search, Fault>
    ensures { IfOk result (λ search. IsIdentifier search.start) }
{
    let match_links = filter_in(alloc, sought.match_links)?;
    let result_filter = filter_in(alloc, sought.result_filter)?;
    let terminal = kinds_of(alloc, sought.terminal)?;
    Ok(Search {
        start: address_of(alloc, 1),
        match_links,
        max_depth: sought.max_depth,
        max_size: 50_000_000,
        result_filter,
        terminal,
    })
}
