//! The attributes of requests, each put after the others.
ghost use Rattle.std.specs.Prelude.{◌≡◌, ◌++◌, ◌∷◌, Some, codes, IfOk, OnOk};
ghost use Rattle.ifmap_filter.specs.Printing.{joined_texts};
ghost use Rattle.ifmap_ident.specs.Kinds.{kind_name};
ghost use Rattle.ifmap_writing.specs.Attributes.{attributes_of, values_of_bounds, values_of_filter, filter_value, kinds_value, values_of_lifetime, values_of_limit, values_of_name, number_value, values_of_purge, values_of_search, values_of_session, values_of_subscription, written_attribute};
ghost use Rattle.ifmap_writing.specs.RequestSpaces.{ServeFilter, ServeSearch};

use ifmap_elem::{Attribute, Copied, Many, Text};
use ifmap_filter::Filter;
use ifmap_ident::Kind;
use ifmap_search::Search;
use std::alloc::{AllocError as NoMemory, Global};

// The attribute of a session's id, alone.
pub(crate) fn session_attributes(alloc: Global, session: &Text) -> Result<Vec<Attribute>, NoMemory>
    ensures { IfOk result (λ attributes.
        attributes.items ≡ attributes_of (values_of_session session.now)) }
{
    let mut attributes = Vec::new(alloc);
    push_text(alloc, "session-id", session, &mut attributes)?;
    Ok(attributes)
}

pub(crate) fn limit_attributes(
    alloc: Global,
    limit: Option<u32>,
) -> Result<Vec<Attribute>, NoMemory>
    ensures { IfOk result (λ attributes. attributes.items ≡ attributes_of (values_of_limit limit)) }
{
    let mut attributes = Vec::new(alloc);
    if let Some(limit) = limit {
        push_number(alloc, "max-poll-result-size", limit as u64, &mut attributes)?;
    }
    Ok(attributes)
}

pub(crate) fn purge_attributes(
    alloc: Global,
    session: &Text,
    publisher: &Text,
) -> Result<Vec<Attribute>, NoMemory>
    ensures { IfOk result (λ attributes. attributes.items
        ≡ attributes_of (values_of_purge session.now publisher.now)) }
{
    let mut attributes = Vec::new(alloc);
    push_text(alloc, "ifmap-publisher-id", publisher, &mut attributes)?;
    push_text(alloc, "session-id", session, &mut attributes)?;
    Ok(attributes)
}

// A lifetime is said where it is not that of the session.
pub(crate) fn lifetime_attributes(alloc: Global, forever: bool) -> Result<Vec<Attribute>, NoMemory>
    ensures { IfOk result (λ attributes.
        attributes.items ≡ attributes_of (values_of_lifetime forever)) }
{
    let mut attributes = Vec::new(alloc);
    if forever {
        let value = Text::from_str(alloc, "forever")?;
        push_attribute(alloc, "lifetime", value, &mut attributes)?;
    }
    Ok(attributes)
}

pub(crate) fn filter_attributes(
    alloc: Global,
    spaces: &Many<Text>,
    filter: &Option<Filter>,
) -> Result<Vec<Attribute>, NoMemory>
    requires { ServeFilter spaces.now filter.now }
    ensures { IfOk result (λ attributes. attributes.items
        ≡ attributes_of (values_of_filter spaces.now filter.now)) }
{
    let mut attributes = Vec::new(alloc);
    push_filter(alloc, "filter", spaces, filter, &mut attributes)?;
    Ok(attributes)
}

pub(crate) fn name_attributes(alloc: Global, name: &Text) -> Result<Vec<Attribute>, NoMemory>
    ensures { IfOk result (λ attributes.
        attributes.items ≡ attributes_of (values_of_name name.now)) }
{
    let mut attributes = Vec::new(alloc);
    push_text(alloc, "name", name, &mut attributes)?;
    Ok(attributes)
}

pub(crate) fn search_attributes(
    alloc: Global,
    spaces: &Many<Text>,
    session: &Text,
    search: &Search,
) -> Result<Vec<Attribute>, NoMemory>
    requires { ServeSearch spaces.now search.now }
    ensures { IfOk result (λ attributes. attributes.items
        ≡ attributes_of (values_of_search spaces.now session.now search.now)) }
{
    let mut attributes = Vec::new(alloc);
    push_bounds(alloc, spaces, search, &mut attributes)?;
    push_filter(
        alloc,
        "result-filter",
        spaces,
        &search.result_filter,
        &mut attributes,
    )?;
    push_text(alloc, "session-id", session, &mut attributes)?;
    push_kinds(alloc, search.terminal.as_slice(), &mut attributes)?;
    Ok(attributes)
}

pub(crate) fn subscription_attributes(
    alloc: Global,
    spaces: &Many<Text>,
    name: &Text,
    search: &Search,
) -> Result<Vec<Attribute>, NoMemory>
    requires { ServeSearch spaces.now search.now }
    ensures { IfOk result (λ attributes. attributes.items
        ≡ attributes_of (values_of_subscription spaces.now name.now search.now)) }
{
    let mut attributes = Vec::new(alloc);
    push_bounds(alloc, spaces, search, &mut attributes)?;
    push_text(alloc, "name", name, &mut attributes)?;
    push_filter(
        alloc,
        "result-filter",
        spaces,
        &search.result_filter,
        &mut attributes,
    )?;
    push_kinds(alloc, search.terminal.as_slice(), &mut attributes)?;
    Ok(attributes)
}

// The filter of links and the bounds of a search, whose attributes come first.
fn push_bounds(
    alloc: Global,
    spaces: &Many<Text>,
    search: &Search,
    attributes: &mut Vec<Attribute>,
) -> Result<(), NoMemory>
    requires { ServeSearch spaces.now search.now }
    ensures { OnOk result (attributes.new.items
        ≡ attributes.old.items ++ attributes_of (values_of_bounds spaces.now search.now)) }
{
    push_filter(
        alloc,
        "match-links",
        spaces,
        &search.match_links,
        attributes,
    )?;
    push_number(alloc, "max-depth", search.max_depth as u64, attributes)?;
    push_number(alloc, "max-size", search.max_size, attributes)?;
    Ok(())
}

fn push_text(
    alloc: Global,
    local: &str,
    text: &Text,
    attributes: &mut Vec<Attribute>,
) -> Result<(), NoMemory>
    ensures { OnOk result (attributes.new.items
        ≡ attributes.old.items ++ written_attribute local.now (Some text.now)) }
{
    push_attribute(alloc, local, text.copy(alloc)?, attributes)
}

fn push_number(
    alloc: Global,
    local: &str,
    number: u64,
    attributes: &mut Vec<Attribute>,
) -> Result<(), NoMemory>
    ensures { OnOk result (attributes.new.items
        ≡ attributes.old.items ++ written_attribute local.now (number_value number)) }
{
    push_attribute(alloc, local, Text::from_number(alloc, number)?, attributes)
}

// Nothing where there is no filter.
fn push_filter(
    alloc: Global,
    local: &str,
    spaces: &Many<Text>,
    filter: &Option<Filter>,
    attributes: &mut Vec<Attribute>,
) -> Result<(), NoMemory>
    requires { ServeFilter spaces.now filter.now }
    ensures { OnOk result (attributes.new.items ≡ attributes.old.items
        ++ written_attribute local.now (filter_value spaces.now filter.now)) }
{
    match filter {
        Some(filter) => push_attribute(alloc, local, filter.print(alloc, spaces)?, attributes),
        None => Ok(()),
    }
}

// Nothing where there are no kinds.
fn push_kinds(
    alloc: Global,
    kinds: &[Kind],
    attributes: &mut Vec<Attribute>,
) -> Result<(), NoMemory>
    ensures { OnOk result (attributes.new.items ≡ attributes.old.items
        ++ written_attribute (codes "terminal-identifier-type") (kinds_value kinds.now)) }
{
    let Some((first, others)) = kinds.split_first() else {
        return Ok(());
    };
    let text = kinds_text(alloc, *first, others)?;
    push_attribute(alloc, "terminal-identifier-type", text, attributes)
}

// The names of kinds with commas between them.
fn kinds_text(alloc: Global, first: Kind, others: &[Kind]) -> Result<Text, NoMemory>
    ensures { IfOk result (λ text.
        text ≡ joined_texts (codes ",") kind_name (first ∷ others.now)) }
{
    let mut text = String::from_str(alloc, first.name())?;
    for kind in others {
        text.push_str(",")?;
        text.push_str(kind.name())?;
    }
    Ok(Text(text))
}

fn push_attribute(
    alloc: Global,
    local: &str,
    value: Text,
    attributes: &mut Vec<Attribute>,
) -> Result<(), NoMemory>
    ensures { OnOk result (attributes.new.items
        ≡ attributes.old.items ++ written_attribute local.now (Some value)) }
{
    attributes.push(Attribute::with_local(alloc, local, value)?)?;
    Ok(())
}
