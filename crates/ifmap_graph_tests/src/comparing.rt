//! Whether views show what a plain list says.
use crate::facts::{
    Fact, client_at, count_addresses, count_at, count_links, sort_at, spot_at, text_at, time_at,
};
use ifmap_elem::Element;
use ifmap_fresh_tests::places::{address_of, item_at};
use ifmap_graph::Graph;
use ifmap_meta::Stored;
use ifmap_publish_tests::reading::{text_of, value_of};
use ifmap_view::{Row, View};
use std::alloc::Global;

// Whether an element is of a sort and a text, with that moment.
fn is_element(element: &Element, fact: &Fact) -> bool {
    let attributes = element.attributes.as_slice();
    let sort = sort_at(fact.sort);
    element.name.local.0.as_str() == sort.name
        && value_of(attributes, "ifmap-cardinality") == sort.cardinality
        && value_of(attributes, "ifmap-timestamp") == time_at(fact.time)
        && text_of(element) == text_at(fact.text)
}

fn is_stored(stored: &Stored, fact: &Fact) -> bool {
    is_element(stored.element.element(), fact)
        && stored.publisher.text().0.as_str() == client_at(fact.client)
        && stored.life == fact.life
}

fn is_among(rows: &[Row], fact: &Fact) -> bool {
    for row in rows {
        if is_stored(row.stored_element(), fact) {
            return true;
        }
    }
    false
}

// Whether these rows are what a list says of a place.
fn are_rows(rows: &[Row], facts: &[Fact], spot: usize) -> bool {
    for fact in facts {
        if fact.spot == spot && !is_among(rows, fact) {
            return false;
        }
    }
    rows.len() == count_at(facts, spot)
}

fn shows_at<V: View>(alloc: Global, view: &V, facts: &[Fact], spot: usize) -> bool {
    match item_at(alloc, spot_at(spot).place) {
        Ok(item) => are_rows(view.stored_at(&item), facts, spot),
        Err(_) => false,
    }
}

// How many links a view has at an address.
fn count_shown<V: View>(alloc: Global, view: &V, address: u8) -> u64 {
    match view.number(&address_of(alloc, address)) {
        Some(number) => view.link_count(number),
        None => 0,
    }
}

fn links_shown<V: View>(alloc: Global, view: &V, facts: &[Fact]) -> bool {
    for address in 1u8..4 {
        if count_shown(alloc, view, address) != count_links(facts, address) {
            return false;
        }
    }
    true
}

// Whether a view shows on each place what a list says, and at each address its links.
pub(crate) fn shows<V: View>(alloc: Global, view: &V, facts: &[Fact]) -> bool {
    for spot in 0..6 {
        if !shows_at(alloc, view, facts, spot) {
            return false;
        }
    }
    links_shown(alloc, view, facts)
}

// Whether a graph on which nothing is out has numbers for just the addresses that are used, and as many links.
pub(crate) fn counts(graph: &Graph, facts: &[Fact]) -> bool {
    graph.identifiers() == count_addresses(facts) && graph.links() == count_links(facts, 0)
}
