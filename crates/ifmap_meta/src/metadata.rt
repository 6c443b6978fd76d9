//! Elements that are to be published.
ghost use Rattle.std.specs.Prelude.{◌≡◌, ◌≤◌, ◌<◌, ◌↔◌, None, length, IfOk, IsErrOf, IsSome, IsTrue};
ghost use Rattle.ifmap_elem.specs.Canonical.{canonical_bytes};
ghost use Rattle.ifmap_elem.specs.Fit.{IsFit};
ghost use Rattle.ifmap_elem.specs.Nesting.{nesting};
ghost use Rattle.ifmap_meta.specs.Cardinality.{cardinality_of, is_multi, is_multi_value, is_single, is_single_value};
ghost use Rattle.ifmap_meta.specs.Keys.{content_bytes};
ghost use Rattle.ifmap_meta.specs.Whole.{IsMadeOf, IsMetadata, content_limit, level_limit};

use crate::arranging::arrange_content;
use crate::errors::MetaError;
use ifmap_elem::{Attribute, Copied, Element, canonical};
use std::alloc::{AllocError as NoMemory, Global};

/// How many elements of one type an item can carry: `ifmap-cardinality` of the IF-MAP binding for
/// SOAP, version 2.2, which the elements of IF-MAP Metadata for Network Security, version 1.1, say.
#[derive(Clone, Copy, Debug, PartialEq, Eq)]
pub enum Cardinality {
    /// One: the next takes its place, whoever published it.
    Single,
    /// Many: one for each publisher and content.
    Multi,
}

impl Copied for Cardinality {
    fn copy(&self, _alloc: Global) -> Result<Self, NoMemory> {
        Ok(*self)
    }
}

/// An element that is to be published: its content, without the server's stamps.
#[derive(Debug, Drop)]
pub struct Metadata {
    /// What is published, its attributes in order.
    pub element: Element,
    /// How many of its type an item can carry, as the element itself says.
    pub cardinality: Cardinality,
}

impl Copied for Metadata {
    fn copy(&self, alloc: Global) -> Result<Self, NoMemory> {
        Ok(Metadata {
            element: self.element.copy(alloc)?,
            cardinality: self.cardinality,
        })
    }
}

// How many canonical bytes content can have.
const CONTENT_LIMIT: usize = 100_000;

impl Metadata {
    /// What is published of an element: all but what it says itself of its publisher and moment, with
    /// the attributes of all elements in it put in order. It is `Invalid` where the element does not
    /// say its cardinality, and otherwise `TooLong` where more than 100,000 canonical bytes are left.
    pub fn from_element(alloc: Global, element: Element) -> Result<Metadata, MetaError>
        ensures made { IfOk result (IsMadeOf element) }
        ensures metadata { IsFit element → nesting element ≤ level_limit → IfOk result IsMetadata }
        ensures invalid { IsErrOf result MetaError.Invalid ↔ (cardinality_of element ≡ None) }
        ensures too_long { IsErrOf result MetaError.TooLong →
            IsSome (cardinality_of element) × (content_limit < length (content_bytes element)) }
    {
        let Some(cardinality) = cardinality_of(&element) else {
            return Err(MetaError::Invalid);
        };
        let element = arrange_content(element);
        if is_too_long(alloc, &element)? {
            return Err(MetaError::TooLong);
        }
        Ok(Metadata {
            element,
            cardinality,
        })
    }
}

/// What the element says of its cardinality. It takes no memory.
pub fn cardinality_of(element: &Element) -> Option<Cardinality>
    ensures { result ≡ cardinality_of element.now }
{
    if is_single(element) {
        return Some(Cardinality::Single);
    }
    if is_multi(element) {
        return Some(Cardinality::Multi);
    }
    None
}

/// Whether an item carries one element of this type at most. It takes no memory.
pub fn is_single(element: &Element) -> bool
    ensures { result ≡ is_single element.now }
{
    element.attributes.iter().any(is_single_value)
}

fn is_multi(element: &Element) -> bool
    ensures { result ≡ is_multi element.now }
{
    element.attributes.iter().any(is_multi_value)
}

fn is_single_value(attribute: &Attribute) -> bool
    ensures { result ≡ is_single_value attribute.now }
{
    attribute.name.is_bare("ifmap-cardinality") && attribute.value.as_str() == "singleValue"
}

fn is_multi_value(attribute: &Attribute) -> bool
    ensures { result ≡ is_multi_value attribute.now }
{
    attribute.name.is_bare("ifmap-cardinality") && attribute.value.as_str() == "multiValue"
}

// Whether the element has more canonical bytes than content can have.
fn is_too_long(alloc: Global, element: &Element) -> Result<bool, NoMemory>
    ensures { IfOk result (λ long.
        IsTrue long ↔ (content_limit < length (canonical_bytes element.now))) }
{
    Ok(canonical(alloc, element)?.len() > CONTENT_LIMIT)
}
