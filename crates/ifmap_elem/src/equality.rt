//! Equality that contracts see.
ghost use Rattle.std.specs.Prelude.{◌≡◌, ◌↔◌, IsTrue};

use crate::elements::{Attribute, Child, Element, Name};
use crate::lists::Many;
use crate::texts::Text;

/// What can be compared so that the answer tells a contract whether both values are one value.
pub trait Equals {
    /// Whether both are equal, member by member and in order.
    fn equals(&self, other: &Self) -> bool
        ensures { IsTrue result ↔ (self.now ≡ other.now) };
}

impl Equals for Text {
    fn equals(&self, other: &Text) -> bool {
        self == other
    }
}

impl Equals for Name {
    fn equals(&self, other: &Name) -> bool {
        self.space.equals(&other.space) && self.local.equals(&other.local)
    }
}

impl Equals for Attribute {
    fn equals(&self, other: &Attribute) -> bool {
        self.name.equals(&other.name) && self.value.equals(&other.value)
    }
}

impl<T: Equals> Equals for Many<T> {
    fn equals(&self, other: &Many<T>) -> bool {
        members_equal(self.as_slice(), other.as_slice())
    }
}

fn members_equal<T: Equals>(one: &[T], other: &[T]) -> bool
    ensures { IsTrue result ↔ (one.now ≡ other.now) }
{
    if one.len() != other.len() {
        return false;
    }
    for i in 0..one.len() {
        if !one[i].equals(&other[i]) {
            return false;
        }
    }
    true
}

impl Equals for Child {
    fn equals(&self, other: &Child) -> bool {
        children_are_one(self, other)
    }
}

impl Equals for Element {
    fn equals(&self, other: &Element) -> bool {
        elements_are_one(self, other)
    }
}

#[cycle(equal)]
fn children_are_one(one: &Child, other: &Child) -> bool
    ensures { IsTrue result ↔ (one.now ≡ other.now) }
{
    match (one, other) {
        (Child::Element(one), Child::Element(other)) => elements_are_one(one, other),
        (Child::Text(one), Child::Text(other)) => one.equals(other),
        _ => false,
    }
}

#[cycle(equal)]
fn elements_are_one(one: &Element, other: &Element) -> bool
    ensures { IsTrue result ↔ (one.now ≡ other.now) }
{
    one.name.equals(&other.name)
        && one.attributes.equals(&other.attributes)
        && child_lists_are_one(one.children.as_slice(), other.children.as_slice())
}

#[cycle(equal)]
fn child_lists_are_one(one: &[Child], other: &[Child]) -> bool
    ensures { IsTrue result ↔ (one.now ≡ other.now) }
{
    if one.len() != other.len() {
        return false;
    }
    for i in 0..one.len() {
        if !children_are_one(&one[i], &other[i]) {
            return false;
        }
    }
    true
}
