//! Names, attributes, children and elements.
ghost use Rattle.std.specs.Prelude.{◌≡◌, IfOk};

use crate::copying::Copied;
use crate::lists::Many;
use crate::texts::Text;
use std::alloc::{AllocError as NoMemory, Global};

/// A name in a namespace; the space is empty where there is none.
#[derive(Debug, Drop, PartialEq, Eq, PartialOrd, Ord)]
pub struct Name {
    pub space: Text,
    pub local: Text,
}

impl Copied for Name {
    fn copy(&self, alloc: Global) -> Result<Self, NoMemory> {
        Ok(Name {
            space: self.space.copy(alloc)?,
            local: self.local.copy(alloc)?,
        })
    }
}

/// An attribute. Attributes are ordered by namespace, then local name, then value.
#[derive(Debug, Drop, PartialEq, Eq, PartialOrd, Ord)]
pub struct Attribute {
    pub name: Name,
    pub value: Text,
}

impl Copied for Attribute {
    fn copy(&self, alloc: Global) -> Result<Self, NoMemory> {
        Ok(Attribute {
            name: self.name.copy(alloc)?,
            value: self.value.copy(alloc)?,
        })
    }
}

/// What stands in an element.
#[cycle(element)]
#[derive(Debug, Drop)]
pub enum Child {
    Element(Element),
    Text(Text),
}

/// An element.
#[cycle(element)]
#[derive(Debug, Drop)]
pub struct Element {
    pub name: Name,
    pub attributes: Many<Attribute>,
    pub children: Many<Child>,
}

impl Copied for Child {
    fn copy(&self, alloc: Global) -> Result<Self, NoMemory> {
        copy_child(alloc, self)
    }
}

impl Copied for Element {
    fn copy(&self, alloc: Global) -> Result<Self, NoMemory> {
        copy_element(alloc, self)
    }
}

#[cycle(copying)]
fn copy_child(alloc: Global, child: &Child) -> Result<Child, NoMemory>
    ensures { IfOk result (λ made. made ≡ child.now) }
{
    match child {
        Child::Element(element) => Ok(Child::Element(copy_element(alloc, element)?)),
        Child::Text(text) => Ok(Child::Text(text.copy(alloc)?)),
    }
}

#[cycle(copying)]
fn copy_element(alloc: Global, element: &Element) -> Result<Element, NoMemory>
    ensures { IfOk result (λ made. made ≡ element.now) }
{
    let name = element.name.copy(alloc)?;
    let attributes = element.attributes.copy(alloc)?;
    let children = copy_children(alloc, element.children.as_slice())?;
    Ok(Element {
        name,
        attributes,
        children,
    })
}

#[cycle(copying)]
fn copy_children(alloc: Global, children: &[Child]) -> Result<Many<Child>, NoMemory>
    ensures { IfOk result (λ made. made ≡ children.now) }
{
    let mut made = Vec::with_capacity(alloc, children.len())?;
    for child in children {
        made.push(copy_child(alloc, child)?)?;
    }
    Ok(Many(made))
}
