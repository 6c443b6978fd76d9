//! Whether an element meets a filter.
ghost use Rattle.std.specs.Prelude.{◌≡◌, map};
ghost use Rattle.std.specs.List.{list_all, list_any};
ghost use Rattle.ifmap_filter.specs.Meets.{has_name, holds, holds_optional, meets, meets_optional, meets_test};

use crate::filters::{Filter, Predicate, Test};
use crate::holding::{has_attribute, has_child};
use ifmap_elem::{Element, Many, Name};

impl Filter {
    /// Whether the element meets the filter: whether it meets one of its tests. It takes no memory,
    /// and stops at the first test that decides.
    pub fn matches(&self, element: &Element) -> bool
        ensures { result ≡ meets self.now element.now }
    {
        self.tests.iter().any(|test| meets_test(test, element))
    }
}

/// Whether the element meets the filter; an absent one is met by each element, while the filter
/// without tests is met by none. It takes no memory.
pub fn meets_optional(filter: &Option<Filter>, element: &Element) -> bool
    ensures { result ≡ meets_optional filter.now element.now }
{
    match filter {
        Some(filter) => filter.matches(element),
        None => true,
    }
}

fn meets_test(test: &Test, element: &Element) -> bool
    ensures { result ≡ meets_test element.now test.now }
{
    has_name(&test.name, element) && holds_optional(&test.predicate, element)
}

fn has_name(name: &Option<Name>, element: &Element) -> bool
    ensures { result ≡ has_name element.now name.now }
{
    match name {
        Some(name) => element.name == *name,
        None => true,
    }
}

fn holds_optional(predicate: &Option<Predicate>, element: &Element) -> bool
    ensures { result ≡ holds_optional element.now predicate.now }
{
    match predicate {
        Some(predicate) => holds(predicate, element),
        None => true,
    }
}

#[cycle(holding)]
fn holds(predicate: &Predicate, element: &Element) -> bool
    ensures { result ≡ holds element.now predicate.now }
{
    match predicate {
        Predicate::Attr { local, value } => has_attribute(element, local, value),
        Predicate::Child { name, value } => has_child(element, name, value),
        Predicate::And(parts) => all_hold(parts, element),
        Predicate::Or(parts) => one_holds(parts, element),
    }
}

#[cycle(holding)]
fn all_hold(parts: &Many<Predicate>, element: &Element) -> bool
    ensures { result ≡ list_all (holds element.now) parts.now }
{
    for part in parts.as_slice() {
        if !holds(part, element) {
            return false;
        }
    }
    true
}

#[cycle(holding)]
fn one_holds(parts: &Many<Predicate>, element: &Element) -> bool
    ensures { result ≡ list_any (holds element.now) parts.now }
{
    for part in parts.as_slice() {
        if holds(part, element) {
            return true;
        }
    }
    false
}
