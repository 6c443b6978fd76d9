//! Elements of which parts are borrowed.
ghost use Rattle.std.specs.Prelude.{◌≡◌, map, IfOk};
ghost use Rattle.ifmap_elem.specs.Building.{bare_element};
ghost use Rattle.ifmap_elem.specs.Outlines.{label_name, named_element, outline_child, outline_element};
ghost use Rattle.ifmap_elem.specs.declared.elements.Child as the;

use crate::copying::Copied;
use crate::elements::{Attribute, Child, Element, Name};
use crate::lists::Many;
use crate::outline_attributes::OutlineAttribute;
use crate::texts::Text;
use std::alloc::{AllocError as NoMemory, Global};

/// A name that something else holds.
#[derive(Clone, Copy)]
pub enum Label<'a> {
    /// The name of this local part in no namespace.
    Bare(&'a str),
    /// This name.
    Named(&'a Name),
}

impl<'a> Label<'a> {
    /// The local part.
    pub fn local_part(self) -> &'a str
        ensures { result.now ≡ (label_name self.entry).local }
    {
        match self {
            Label::Bare(local) => local,
            Label::Named(name) => name.local.as_str(),
        }
    }

    // A copy of the name.
    fn name(self, alloc: Global) -> Result<Name, NoMemory>
        ensures { IfOk result (λ name. name ≡ label_name self.entry) }
    {
        match self {
            Label::Bare(local) => Name::with_local(alloc, local),
            Label::Named(name) => name.copy(alloc),
        }
    }
}

/// What stands in an outline.
#[cycle(outline)]
#[derive(Drop)]
pub enum Piece<'a> {
    /// A text that something else holds.
    Text(&'a Text),
    /// An element that something else holds.
    Shared(&'a Element),
    /// An outline inside this one.
    Outline(Outline<'a>),
}

/// An element around parts that something else holds. It is printed as the element that it stands
/// for, and none of these parts is copied before.
#[cycle(outline)]
#[derive(Drop)]
pub struct Outline<'a> {
    pub label: Label<'a>,
    pub attributes: Many<OutlineAttribute<'a>>,
    pub pieces: Many<Piece<'a>>,
}

impl<'a> Piece<'a> {
    /// A text that something else holds.
    pub fn text(text: &'a Text) -> Piece<'a>
        ensures { outline_child result ≡ the.Text text.now }
    {
        Piece::Text(text)
    }

    /// An element that something else holds.
    pub fn of_element(element: &'a Element) -> Piece<'a>
        ensures { outline_child result ≡ the.Element element.now }
    {
        Piece::Shared(element)
    }
}

impl<'a> Outline<'a> {
    /// An element in no namespace.
    pub fn with_local(
        local: &'a str,
        attributes: Vec<OutlineAttribute<'a>>,
        pieces: Vec<Piece<'a>>,
    ) -> Outline<'a>
        ensures { outline_element result
            ≡ bare_element local.now attributes.entry.items (map outline_child pieces.entry.items) }
    {
        Outline {
            label: Label::Bare(local),
            attributes: Many(attributes),
            pieces: Many(pieces),
        }
    }

    /// An element of this name.
    pub fn with_name(
        name: &'a Name,
        attributes: Vec<OutlineAttribute<'a>>,
        pieces: Vec<Piece<'a>>,
    ) -> Outline<'a>
        ensures { outline_element result ≡ named_element name.now attributes.entry.items
            (map outline_child pieces.entry.items) }
    {
        Outline {
            label: Label::Named(name),
            attributes: Many(attributes),
            pieces: Many(pieces),
        }
    }

    /// The outline as a piece of another.
    pub fn into_piece(self) -> Piece<'a>
        ensures { outline_child result ≡ the.Element (outline_element self.entry) }
    {
        Piece::Outline(self)
    }

    /// The element that it stands for, with a copy of what is borrowed. The one error is want of
    /// memory.
    pub fn element(&self, alloc: Global) -> Result<Element, NoMemory>
        ensures { IfOk result (λ element. element ≡ outline_element self.now) }
    {
        copy_outline(alloc, self)
    }
}

#[cycle(outline_copying)]
fn copy_outline(alloc: Global, outline: &Outline<'_>) -> Result<Element, NoMemory>
    ensures { IfOk result (λ element. element ≡ outline_element outline.now) }
{
    let name = outline.label.name(alloc)?;
    let attributes = copy_attributes(alloc, outline.attributes.as_slice())?;
    let children = copy_pieces(alloc, outline.pieces.as_slice())?;
    Ok(Element {
        name,
        attributes,
        children,
    })
}

fn copy_attributes(
    alloc: Global,
    attributes: &[OutlineAttribute<'_>],
) -> Result<Many<Attribute>, NoMemory>
    ensures { IfOk result (λ made. made ≡ attributes.now) }
{
    let mut made = Vec::with_capacity(alloc, attributes.len())?;
    for attribute in attributes {
        made.push(attribute.attribute(alloc)?)?;
    }
    Ok(Many(made))
}

#[cycle(outline_copying)]
fn copy_pieces(alloc: Global, pieces: &[Piece<'_>]) -> Result<Many<Child>, NoMemory>
    ensures { IfOk result (λ children. children ≡ map outline_child pieces.now) }
{
    let mut children = Vec::with_capacity(alloc, pieces.len())?;
    for piece in pieces {
        children.push(copy_piece(alloc, piece)?)?;
    }
    Ok(Many(children))
}

#[cycle(outline_copying)]
fn copy_piece(alloc: Global, piece: &Piece<'_>) -> Result<Child, NoMemory>
    ensures { IfOk result (λ made. made ≡ outline_child piece.now) }
{
    match piece {
        Piece::Text(text) => Ok(Child::Text(text.copy(alloc)?)),
        Piece::Shared(element) => Ok(Child::Element(element.copy(alloc)?)),
        Piece::Outline(outline) => Ok(Child::Element(copy_outline(alloc, outline)?)),
    }
}
