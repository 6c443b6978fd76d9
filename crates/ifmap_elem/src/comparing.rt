//! Whether two elements are the same but for the order of their attributes.
ghost use Rattle.std.specs.Prelude.{◌≡◌, ◌↔◌, IsTrue, map};
ghost use Rattle.ifmap_elem.specs.Arranged.{IsSame, arrange, arrange_child, sort_attributes};
ghost use Rattle.ifmap_elem.specs.Canonical.{canonical_bytes};
ghost use Rattle.ifmap_elem.specs.Fit.{IsFit};
ghost use Rattle.ifmap_elem.specs.printer.Occurrences.{occurrences_of};

use crate::elements::{Attribute, Child, Element};
use crate::equality::Equals;
use crate::lists::Many;

/// Whether two elements are the same but for the order of their attributes. It takes no memory.
/// Attributes in one order are compared once each; in different orders each is counted in both
/// elements, in time that grows with the square of their number in one element.
pub fn same(a: &Element, b: &Element) -> bool
    ensures same { IsTrue result ↔ IsSame a.now b.now }
    ensures canonical { IsFit a.now → IsFit b.now →
        (IsTrue result ↔ (canonical_bytes a.now ≡ canonical_bytes b.now)) }
{
    same_element(a, b)
}

#[cycle(same)]
fn same_child(one: &Child, other: &Child) -> bool
    ensures { IsTrue result ↔ (arrange_child one.now ≡ arrange_child other.now) }
{
    match (one, other) {
        (Child::Element(one), Child::Element(other)) => same_element(one, other),
        (Child::Text(one), Child::Text(other)) => one.equals(other),
        _ => false,
    }
}

#[cycle(same)]
fn same_element(one: &Element, other: &Element) -> bool
    ensures { IsTrue result ↔ (arrange one.now ≡ arrange other.now) }
{
    one.name.equals(&other.name)
        && same_attributes(&one.attributes, &other.attributes)
        && same_children(one.children.as_slice(), other.children.as_slice())
}

#[cycle(same)]
fn same_children(one: &[Child], other: &[Child]) -> bool
    ensures { IsTrue result ↔ (map arrange_child one.now ≡ map arrange_child other.now) }
{
    if one.len() != other.len() {
        return false;
    }
    for i in 0..one.len() {
        if !same_child(&one[i], &other[i]) {
            return false;
        }
    }
    true
}

fn same_attributes(one: &Many<Attribute>, other: &Many<Attribute>) -> bool
    ensures { IsTrue result ↔ (sort_attributes one.now ≡ sort_attributes other.now) }
{
    one.equals(other) || have_same_members(one.as_slice(), other.as_slice())
}

// Whether both have the same attributes, each as often.
fn have_same_members(one: &[Attribute], other: &[Attribute]) -> bool
    ensures { IsTrue result ↔ (sort_attributes one.now ≡ sort_attributes other.now) }
{
    if one.len() != other.len() {
        return false;
    }
    for attribute in one {
        if occurrences(attribute, one) != occurrences(attribute, other) {
            return false;
        }
    }
    true
}

fn occurrences(attribute: &Attribute, list: &[Attribute]) -> usize
    ensures { result ≡ occurrences_of attribute.now list.now }
{
    list.iter().filter(|a| *a == attribute).count()
}
