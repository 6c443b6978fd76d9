//! Texts, names, attributes and elements made from words.
ghost use Rattle.std.specs.Prelude.{◌≡◌, IfOk};
ghost use Rattle.ifmap_lemmas.specs.Numerals.{numeral};
ghost use Rattle.ifmap_elem.specs.Building.{bare_attribute, bare_element, bare_name, is_bare};

use crate::elements::{Attribute, Child, Element, Name};
use crate::lists::Many;
use crate::texts::Text;
use itoa::Buffer;
use std::alloc::{AllocError as NoMemory, Global};

impl Text {
    /// These words as a text. The one error is want of memory.
    pub fn from_str(alloc: Global, words: &str) -> Result<Text, NoMemory>
        ensures { IfOk result (λ text. text ≡ words.now) }
    {
        Ok(Text(String::from_str(alloc, words)?))
    }

    /// The number in decimal digits. The one error is want of memory.
    pub fn from_number(alloc: Global, number: u64) -> Result<Text, NoMemory>
        ensures { IfOk result (λ text. text ≡ numeral number) }
    {
        let mut digits = Buffer::new();
        Text::from_str(alloc, digits.format(number))
    }
}

impl Name {
    /// The name of this local part in a namespace. The one error is want of memory.
    pub fn new(alloc: Global, space: &str, local: &str) -> Result<Name, NoMemory>
        ensures { IfOk result (λ name. name ≡ record { space = space.now; local = local.now }) }
    {
        Ok(Name {
            space: Text::from_str(alloc, space)?,
            local: Text::from_str(alloc, local)?,
        })
    }

    /// The name of this local part in no namespace. The one error is want of memory.
    pub fn with_local(alloc: Global, local: &str) -> Result<Name, NoMemory>
        ensures { IfOk result (λ name. name ≡ bare_name local.now) }
    {
        Ok(Name {
            space: Text::new(alloc),
            local: Text::from_str(alloc, local)?,
        })
    }

    /// Whether it is the name of this local part in no namespace.
    pub fn is_bare(&self, local: &str) -> bool
        ensures { result ≡ is_bare local.now self.now }
    {
        self.space.is_empty() && self.local.as_str() == local
    }
}

impl Attribute {
    /// An attribute in no namespace. The one error is want of memory.
    pub fn with_local(alloc: Global, local: &str, value: Text) -> Result<Attribute, NoMemory>
        ensures { IfOk result (λ attribute. attribute ≡ bare_attribute local.now value) }
    {
        let name = Name::with_local(alloc, local)?;
        Ok(Attribute { name, value })
    }
}

impl Element {
    /// An element in no namespace. The one error is want of memory.
    pub fn with_local(
        alloc: Global,
        local: &str,
        attributes: Vec<Attribute>,
        children: Vec<Child>,
    ) -> Result<Element, NoMemory>
        ensures { IfOk result (λ element.
            element ≡ bare_element local.now attributes.items children.items) }
    {
        Ok(Element {
            name: Name::with_local(alloc, local)?,
            attributes: Many(attributes),
            children: Many(children),
        })
    }
}
