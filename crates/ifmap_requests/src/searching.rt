//! Searches, read from elements.
ghost use Rattle.std.specs.Prelude.{◌≡◌, map};
ghost use Rattle.ifmap_forms.specs.Answers.{IsChecked, IsCheckedAs};
ghost use Rattle.ifmap_forms.specs.Scopes.{place_scope};
ghost use Rattle.ifmap_requests.specs.RequestForms.{search_attributes, search_check, search_from, values_of};

use ifmap_elem::{Element, Many};
use ifmap_forms::identifiers::read_start;
use ifmap_forms::parts::has_only;
use ifmap_forms::values::{read_depth, read_filter, read_kinds, read_size};
use ifmap_forms::{Filter, FormError, MessagePlace};
use ifmap_ident::{Code, Identifier, Kind};
use ifmap_search::Search;
use std::alloc::Global;

/// What the attributes of a search say.
#[derive(Drop)]
pub struct Bounds {
    pub match_links: Option<Filter>,
    pub max_depth: u32,
    pub max_size: u64,
    pub result_filter: Option<Filter>,
    pub terminal: Many<Kind>,
}

// The search of an element that may have these attributes and no others.
pub(crate) fn read_search(
    alloc: Global,
    place: &MessagePlace<'_, '_>,
    element: &Element,
    locals: &[&str],
) -> Result<Search, FormError>
    ensures { IsChecked (search_check (map (λ local. local.now) locals.now) (place_scope
        place.now.declared.now place.now.path.now place.now.child) element.now) result }
{
    let bounds = read_bounds(alloc, place, element)?;
    if !has_only(element, locals) {
        return Err(FormError::Named(Code::Failure));
    }
    let start = read_start(alloc, element.children.as_slice())?;
    Ok(search_from(start, bounds))
}

fn read_bounds(
    alloc: Global,
    place: &MessagePlace<'_, '_>,
    element: &Element,
) -> Result<Bounds, FormError>
    ensures { IsCheckedAs values_of (search_attributes.reads (place_scope place.now.declared.now
        place.now.path.now place.now.child) element.now) result }
{
    let match_links = read_filter(alloc, place, element, "match-links")?;
    let max_depth = read_depth(element)?;
    let max_size = read_size(element)?;
    let result_filter = read_filter(alloc, place, element, "result-filter")?;
    let terminal = read_kinds(alloc, element)?;
    Ok(Bounds {
        match_links,
        max_depth,
        max_size,
        result_filter,
        terminal,
    })
}

fn search_from(start: Identifier, bounds: Bounds) -> Search
    ensures { result ≡ search_from start (values_of bounds) }
{
    Search {
        start,
        match_links: bounds.match_links,
        max_depth: bounds.max_depth,
        max_size: bounds.max_size,
        result_filter: bounds.result_filter,
        terminal: bounds.terminal,
    }
}
