//! Rows of filters: a text in a scope, and what is printed of its filter with the namespaces that it needs, or the
//! place at which it stops to write one. A scope is `PREFIX=NAMESPACE,PREFIX=NAMESPACE`, or `-` where it is empty.
use crate::elements::spaces_of;
use crate::escapes::{bytes_of, text_of};
use ifmap_elem::{Copied, Equals, Many, Text};
use ifmap_filter::{Filter, FilterError};
use ifmap_reader::Scope;
use std::alloc::{AllocError as NoMemory, Global};

/// The answer to a scope and a text: the scope in which the filter is printed, and what is printed.
pub fn answer_of(alloc: Global, asked: &str) -> Result<String, NoMemory> {
    answer_or_place(alloc, printed_row(alloc, asked))
}

fn printed_row(alloc: Global, asked: &str) -> Result<String, FilterError> {
    let (scope, text) = asked.split_once(' ').unwrap_or((asked, ""));
    let filter = filter_of(alloc, &scope_of(alloc, scope)?, text)?;
    let spaces = filter.spaces(alloc)?;
    let mut answer = String::new(alloc);
    push_spaces(&mut answer, spaces.as_slice())?;
    let printed = printed_text(alloc, &filter, &spaces)?;
    if !printed.is_empty() {
        answer.push(' ')?;
        answer.push_str(printed.as_str())?;
    }
    Ok(answer)
}

/// The answer to a list of namespaces, a scope and a text: what is printed where these namespaces have the prefixes
/// `f1`, `f2` and so on.
pub fn answer_among(alloc: Global, asked: &str) -> Result<String, NoMemory> {
    answer_or_place(alloc, row_among(alloc, asked))
}

fn row_among(alloc: Global, asked: &str) -> Result<String, FilterError> {
    let (spaces, rest) = asked.split_once(' ').unwrap_or((asked, ""));
    let (scope, text) = rest.split_once(' ').unwrap_or((rest, ""));
    let filter = filter_of(alloc, &scope_of(alloc, scope)?, text)?;
    printed_text(alloc, &filter, &spaces_of(alloc, spaces)?)
}

/// The answer to a scope and a text: the filter with all its parts.
pub fn parts_of(alloc: Global, asked: &str) -> Result<String, NoMemory> {
    let (scope, text) = asked.split_once(' ').unwrap_or((asked, ""));
    match filter_of(alloc, &scope_of(alloc, scope)?, text) {
        Ok(filter) => parts_text(alloc, &filter),
        Err(error) => place_of(alloc, &error),
    }
}

// The filter as it is debugged, with parentheses for braces, which a row has for its names.
fn parts_text(alloc: Global, filter: &Filter) -> Result<String, NoMemory> {
    let parts = format!(in alloc; "{filter:?}")?;
    let mut text = String::new(alloc);
    for it in parts.chars() {
        text.push(match it {
            '{' => '(',
            '}' => ')',
            _ => it,
        })?;
    }
    Ok(text)
}

/// The answer, or the place at which a text stops to write a filter.
pub fn answer_or_place(
    alloc: Global,
    answer: Result<String, FilterError>,
) -> Result<String, NoMemory> {
    match answer {
        Ok(answer) => Ok(answer),
        Err(error) => place_of(alloc, &error),
    }
}

fn place_of(alloc: Global, error: &FilterError) -> Result<String, NoMemory> {
    match error {
        FilterError::NotAFilter { at } => format!(in alloc; "NotAFilter {at}"),
        FilterError::NoMemory => Err(NoMemory),
    }
}

/// The filter that a text with escapes writes in this scope.
pub fn filter_of(alloc: Global, scope: &Scope, written: &str) -> Result<Filter, FilterError> {
    Filter::parse(alloc, &text_in(alloc, written)?, scope)
}

// The text that is written with escapes; as it stands where it has none that are right.
fn text_in(alloc: Global, written: &str) -> Result<Text, NoMemory> {
    let Some(bytes) = bytes_of(alloc, written)? else {
        return Text::from_str(alloc, written);
    };
    match std::str::from_utf8(bytes.as_slice()) {
        Ok(text) => Text::from_str(alloc, text),
        Err(_) => Text::from_str(alloc, written),
    }
}

/// The scope with these rows.
pub fn scope_of(alloc: Global, written: &str) -> Result<Scope, NoMemory> {
    let mut rows = Vec::new(alloc);
    if written != "-" {
        for row in written.split(',') {
            rows.push(scope_row(alloc, row)?)?;
        }
    }
    Ok(Scope { rows: Many(rows) })
}

fn scope_row(alloc: Global, row: &str) -> Result<(Text, Text), NoMemory> {
    let (prefix, space) = row.split_once('=').unwrap_or((row, ""));
    let prefix = Text::from_str(alloc, prefix)?;
    let space = Text::from_str(alloc, space)?;
    Ok((prefix, space))
}

// What is printed of the filter by these namespaces, where it and its copy are read back from it.
fn printed_text(
    alloc: Global,
    filter: &Filter,
    spaces: &Many<Text>,
) -> Result<String, FilterError> {
    if !filter.has_spaces(spaces) {
        return Ok(String::from_str(alloc, "lacks a namespace")?);
    }
    let printed = filter.print(alloc, spaces)?;
    let back = Filter::parse(alloc, &printed, &printed_scope(alloc, spaces)?)?;
    if !back.equals(filter) {
        return Ok(String::from_str(alloc, "is read back as another")?);
    }
    if !back.copy(alloc)?.equals(filter) {
        return Ok(String::from_str(alloc, "has a copy that differs")?);
    }
    Ok(text_of(alloc, printed.as_bytes())?)
}

// The scope in which these namespaces have the prefixes `f1`, `f2` and so on.
fn printed_scope(alloc: Global, spaces: &Many<Text>) -> Result<Scope, NoMemory> {
    let mut written = String::new(alloc);
    push_spaces(&mut written, spaces.as_slice())?;
    scope_of(alloc, written.as_str())
}

fn push_spaces(out: &mut String, spaces: &[Text]) -> Result<(), NoMemory> {
    if spaces.is_empty() {
        return out.push('-');
    }
    for (i, space) in spaces.iter().enumerate() {
        push_space(out, i, space.as_str())?;
    }
    Ok(())
}

fn push_space(out: &mut String, index: usize, space: &str) -> Result<(), NoMemory> {
    if index > 0 {
        out.push(',')?;
    }
    write!(out, "f{}={space}", index.saturating_add(1))
}
