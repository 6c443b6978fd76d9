//! Rows of outlines: the element of a document, as an outline of its parts prints it.
use crate::documents::{element_of, no_element};
use crate::escapes::text_of;
use ifmap_elem::{
    Attribute, Child, Copied, Element, Outline, OutlineAttribute, Piece, canonical,
    canonical_outline,
};
use std::alloc::{AllocError as NoMemory, Global};

/// The answer to a document: what its outline prints, where the outline's element is printed alike.
pub fn answer_of(alloc: Global, asked: &str) -> Result<String, NoMemory> {
    match element_of(alloc, asked)? {
        Some(element) => printed_of(alloc, &outline_of(alloc, &element)?),
        None => no_element(alloc),
    }
}

fn printed_of(alloc: Global, outline: &Outline<'_>) -> Result<String, NoMemory> {
    let printed = canonical_outline(alloc, outline)?;
    if is_printed(alloc, outline, printed.as_slice())? {
        text_of(alloc, printed.as_slice())
    } else {
        String::from_str(alloc, "element differs")
    }
}

// Whether the element that the outline stands for has these canonical bytes.
fn is_printed(alloc: Global, outline: &Outline<'_>, bytes: &[u8]) -> Result<bool, NoMemory> {
    let element = outline.element(alloc)?;
    let printed = canonical(alloc, &element)?;
    Ok(printed.as_slice() == bytes)
}

// An outline by the element's name.
fn outline_of<'a>(alloc: Global, element: &'a Element) -> Result<Outline<'a>, NoMemory> {
    let attributes = attributes_of(alloc, element)?;
    let mut pieces = Vec::new(alloc);
    for child in element.children.iter() {
        pieces.push(piece_of(alloc, child)?)?;
    }
    Ok(Outline::with_name(&element.name, attributes, pieces))
}

// An element in no namespace as an outline inside, any other as it is.
fn piece_of<'a>(alloc: Global, child: &'a Child) -> Result<Piece<'a>, NoMemory> {
    match child {
        Child::Element(element) if element.name.space.is_empty() => {
            Ok(inner_of(alloc, element)?.into_piece())
        }
        _ => Ok(shared_of(child)),
    }
}

// An outline by a local name.
fn inner_of<'a>(alloc: Global, element: &'a Element) -> Result<Outline<'a>, NoMemory> {
    let attributes = attributes_of(alloc, element)?;
    let mut pieces = Vec::new(alloc);
    for child in element.children.iter() {
        pieces.push(shared_of(child))?;
    }
    Ok(Outline::with_local(element.name.local.as_str(), attributes, pieces))
}

fn shared_of(child: &Child) -> Piece<'_> {
    match child {
        Child::Text(text) => Piece::text(text),
        Child::Element(element) => Piece::of_element(element),
    }
}

fn attributes_of<'a>(
    alloc: Global,
    element: &'a Element,
) -> Result<Vec<OutlineAttribute<'a>>, NoMemory> {
    let mut attributes = Vec::new(alloc);
    for attribute in element.attributes.iter() {
        attributes.push(attribute_of(alloc, attribute)?)?;
    }
    Ok(attributes)
}

// A value of one byte is the attribute's own, any other is borrowed.
fn attribute_of<'a>(
    alloc: Global,
    attribute: &'a Attribute,
) -> Result<OutlineAttribute<'a>, NoMemory> {
    let (local, value) = (attribute.name.local.as_str(), &attribute.value);
    if value.len() == 1 {
        Ok(OutlineAttribute::from_text(local, value.copy(alloc)?))
    } else {
        Ok(OutlineAttribute::from_str(local, value.as_str()))
    }
}
