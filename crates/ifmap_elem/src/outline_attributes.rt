//! Attributes of outlines, of which parts are borrowed.
ghost use Rattle.std.specs.Prelude.{◌≡◌, IfOk};
ghost use Rattle.std.specs.Cmp.{eq_by_cmp_equiv, partial_equiv_from_equiv, partial_order_from_total};
ghost use Rattle.std.specs.Ordering.{as_partial_cmp, eq_by_cmp};
ghost use Rattle.ifmap_elem.specs.Arranged.{attribute_order};
ghost use Rattle.ifmap_elem.specs.Building.{bare_attribute};
ghost use Rattle.ifmap_elem.specs.OutlineValues.{value_text};
ghost use Rattle.ifmap_elem.specs.Outlines.{label_name};
ghost use Rattle.ifmap_elem.specs.laws.AttributeOrder.{attributes_total};
ghost use Rattle.std.proofs.Common.{refl};

use crate::copying::Copied;
use crate::elements::Attribute;
use crate::outlines::Label;
use crate::texts::Text;
use std::alloc::{AllocError as NoMemory, Global};
use std::cmp::Ordering;
use std::marker::Model;

// The text of a value.
#[derive(Drop)]
pub(crate) enum Value<'a> {
    // That something else holds.
    Borrowed(&'a str),
    // That the attribute holds.
    Own(Text),
}

/// An attribute in no namespace whose name something else holds, and mostly its value too. Contracts
/// see the attribute that it stands for.
#[derive(Drop)]
pub struct OutlineAttribute<'a> {
    local: &'a str,
    value: Value<'a>,
}

impl<'a> Model for OutlineAttribute<'a> {
    ghost use Rattle.ifmap_elem.specs.contracts.elements.Attribute as the_attribute;
    ghost use Rattle.ifmap_elem.specs.declared.elements.Attribute.{Attribute};
    ghost use Rattle.ifmap_elem.specs.Building.{bare_attribute};
    ghost use Rattle.ifmap_elem.specs.OutlineValues.{value_text};

    ghost Value = { Attribute };

    ghost coded = { the_attribute.the_row.coded };

    ghost view = { λ a. bare_attribute a.local.now (value_text a.value) };
}

impl<'a> Value<'a> {
    fn text(&self) -> &str
        ensures { result.now ≡ value_text self.now }
    {
        match self {
            Value::Borrowed(text) => *text,
            Value::Own(text) => text.as_str(),
        }
    }
}

impl<'a> OutlineAttribute<'a> {
    /// An attribute whose value something else holds.
    pub fn from_str(local: &'a str, value: &'a str) -> OutlineAttribute<'a>
        ensures { result ≡ bare_attribute local.now value.now }
    {
        OutlineAttribute {
            local,
            value: Value::Borrowed(value),
        }
    }

    /// An attribute that holds its value.
    pub fn from_text(local: &'a str, value: Text) -> OutlineAttribute<'a>
        ensures { result ≡ bare_attribute local.now value }
    {
        OutlineAttribute {
            local,
            value: Value::Own(value),
        }
    }

    // Its name.
    pub(crate) fn label(&self) -> Label<'a>
        ensures { label_name result ≡ self.now.name }
    {
        Label::Bare(self.local)
    }

    // The bytes of its value.
    pub(crate) fn value_bytes(&self) -> &[u8]
        ensures { result.now ≡ self.now.value }
    {
        self.value.text().as_bytes()
    }

    // The attribute that it stands for, with copies of its parts.
    pub(crate) fn attribute(&self, alloc: Global) -> Result<Attribute, NoMemory>
        ensures { IfOk result (λ attribute. attribute ≡ self.now) }
    {
        let value = Text::from_str(alloc, self.value.text())?;
        Attribute::with_local(alloc, self.local, value)
    }
}

impl<'a> PartialEq for OutlineAttribute<'a> {
    ghost eq = { eq_by_cmp attribute_order };

    ghost laws = { partial_equiv_from_equiv (eq_by_cmp_equiv attributes_total) };

    fn eq(&self, other: &OutlineAttribute<'a>) -> bool {
        self.cmp(other).is_eq()
    }
}

impl<'a> Eq for OutlineAttribute<'a> {
    ghost laws = { eq_by_cmp_equiv attributes_total };
}

/// As attributes of elements: by the local name, and then by the value.
impl<'a> Ord for OutlineAttribute<'a> {
    ghost cmp = { attribute_order };

    ghost total = { attributes_total };

    ghost matches_partial_cmp = { λ x y. refl };

    ghost matches_eq = { λ x y. refl };

    fn cmp(&self, other: &OutlineAttribute<'a>) -> Ordering {
        match self.local.as_bytes().cmp(other.local.as_bytes()) {
            Ordering::Equal => self.value_bytes().cmp(other.value_bytes()),
            unequal => unequal,
        }
    }
}

impl<'a> PartialOrd for OutlineAttribute<'a> {
    ghost partial_cmp = { as_partial_cmp attribute_order };

    ghost laws = { partial_order_from_total attributes_total };

    fn partial_cmp(&self, other: &OutlineAttribute<'a>) -> Option<Ordering> {
        Some(self.cmp(other))
    }
}
