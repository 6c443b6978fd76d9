//! The prefixes of an element's namespaces, numbered by first occurrence.
ghost use Rattle.std.specs.Prelude.{◌≡◌, ◌≢◌, ◌∷◌, [], ◌++◌, ◌<◌, None, Some, IfOk, IfSome, OnErr, OnOk, codes, map};
ghost use Rattle.std.specs.BTreeMap.{IsUnchanged, Updates, get};
ghost use Rattle.ifmap_lemmas.specs.Numerals.{numeral};
ghost use Rattle.std.specs.Map.{lookup};
ghost use Rattle.std.specs.Option.{unwrap_or};
ghost use Rattle.std.specs.Str.{bytes_eq};
ghost use Rattle.ifmap_elem.specs.Namespaces.{name_prefixes, AddsSpaces, IsFront};
ghost use Rattle.ifmap_elem.specs.Outlines.{label_name};
ghost use Rattle.ifmap_elem.specs.printer.Keys.{key_order};
ghost use Rattle.ifmap_elem.specs.printer.Pieces.{IsNumbered};

use crate::keys::Key;
use crate::outlines::Label;
use crate::texts::Text;
use itoa::Buffer;
use std::alloc::{AllocError as NoMemory, Global};
use std::collections::BTreeMap;
use std::collections::btree_map::Entry;
use std::marker::Model;

/// The namespace of the prefix `xml` (Namespaces in XML 1.0, section 3).
pub const XML_SPACE: &str = "http://www.w3.org/XML/1998/namespace";

// The prefix of a namespace: `n` and this number, or `xml` where it is 0.
#[derive(Drop)]
pub(crate) struct Prefix(usize);

impl Model for Prefix {
    ghost use Rattle.std.specs.Prelude.{ℕ, List, ◌++◌, ◌==◌, if◌then◌else◌, codes};
    ghost use Rattle.ifmap_lemmas.specs.Numerals.{numeral};

    ghost Value = { List ℕ };

    ghost view = { λ p. if p.0 == 0 then codes "xml" else codes "n" ++ numeral p.0 };
}

impl Prefix {
    fn xml() -> Prefix
        ensures { result ≡ codes "xml" }
    {
        Prefix(0)
    }

    fn of_number(number: usize) -> Prefix
        requires { 0 < number }
        ensures { result ≡ codes "n" ++ numeral number }
    {
        Prefix(number)
    }

    fn copy(&self) -> Prefix
        ensures { result ≡ self.now }
    {
        Prefix(self.0)
    }

    // Appends the characters.
    pub(crate) fn write(&self, out: &mut Vec<u8>) -> Result<(), NoMemory>
        ensures { OnOk result (out.new.items ≡ out.old.items ++ self.now) }
    {
        let number = self.0;
        if number == 0 {
            return out.extend_from_slice(b"xml");
        }
        write_numbered("n", number, out)
    }
}

// Appends a letter and a number.
pub(crate) fn write_numbered(letter: &str, number: usize, out: &mut Vec<u8>) -> Result<(), NoMemory>
    ensures { OnOk result (out.new.items ≡ out.old.items ++ (letter.now ++ numeral number)) }
{
    let mut digits = Buffer::new();
    out.extend_from_slice(letter.as_bytes())?;
    out.extend_from_slice(digits.format(number).as_bytes())?;
    Ok(())
}

// The namespaces that were met, in order, and the prefix of each. That of the last name is at hand,
// since the next name is mostly of the same namespace.
#[derive(Drop)]
pub(crate) struct NumberedPrefixes<'a> {
    order: Vec<&'a Text>,
    labels: BTreeMap<Key<'a>, Prefix>,
    last: &'a [u8],
    last_prefix: Prefix,
}

impl<'a> Model for NumberedPrefixes<'a> {
    ghost use Rattle.std.specs.Prelude.{◌≡◌, List, ℕ, [], None, Some, map};
    ghost use Rattle.std.specs.BTreeMap.{get};
    ghost use Rattle.std.specs.Map.{lookup};
    ghost use Rattle.std.specs.Str.{bytes_eq};
    ghost use Rattle.ifmap_elem.specs.Namespaces.{name_prefixes};
    ghost use Rattle.ifmap_elem.specs.printer.Keys.{key_order};

    ghost Value = { List (List ℕ) };

    ghost view = { λ p. map (λ s. s.now) p.order.items };

    ghost invariant = { λ p.
        ((space : List ℕ) → get key_order p.labels space ≡
        lookup (bytes_eq space) (name_prefixes (map (λ s. s.now) p.order.items)))
        × (lookup (bytes_eq []) (name_prefixes (map (λ s. s.now) p.order.items)) ≡ None)
        × (lookup (bytes_eq p.last.now) (name_prefixes (map (λ s. s.now) p.order.items)) ≡
        Some p.last_prefix) };
}

impl<'a> NumberedPrefixes<'a> {
    pub(crate) fn new(alloc: Global) -> Result<NumberedPrefixes<'a>, NoMemory>
        ensures { IfOk result (λ prefixes. prefixes ≡ []) }
    {
        let mut labels = BTreeMap::new(alloc);
        let last = XML_SPACE.as_bytes();
        let key = Key::new(last);
        let xml = Prefix::xml();
        labels.insert(key, xml.copy())?;
        let order = Vec::new(alloc);
        Ok(NumberedPrefixes {
            order,
            labels,
            last,
            last_prefix: xml,
        })
    }

    // The prefix of a namespace that is that of the last name; none of another.
    fn of_last(&self, space: &[u8]) -> Option<Prefix>
        ensures { IfSome result (λ p.
            lookup (bytes_eq space.now) (name_prefixes self.now) ≡ Some p) }
    {
        if space == self.last {
            Some(self.last_prefix.copy())
        } else {
            None
        }
    }

    // What the lack of a namespace has: no prefix.
    fn of_none(&self) -> Option<Prefix>
        ensures { result ≡ lookup (bytes_eq []) (name_prefixes self.now) }
    {
        let _order = &self.order;
        None
    }

    // The namespaces, in the order of their numbers.
    pub(crate) fn spaces(&self) -> &[&'a Text]
        ensures all { map (λ s. s.now) result.now ≡ self.now }
        ensures none_bare { lookup (bytes_eq []) (name_prefixes self.now) ≡ None }
    {
        &self.order
    }

    // The prefix of a namespace, which is numbered unless it has a prefix or is the lack of one.
    pub(crate) fn number(&mut self, space: &'a Text) -> Result<Option<Prefix>, NoMemory>
        ensures added { OnOk result (AddsSpaces self.old (space.now ∷ []) self.new) }
        ensures extends { OnOk result (IsFront self.old self.new) }
        ensures numbered { OnOk result (IsNumbered self.new space.now) }
        ensures prefix { IfOk result (λ prefix.
            prefix ≡ lookup (bytes_eq space.now) (name_prefixes self.new)) }
    {
        if space.is_empty() {
            return Ok(self.of_none());
        }
        let bytes = space.as_bytes();
        if let Some(prefix) = self.of_last(bytes) {
            return Ok(Some(prefix));
        }
        let prefix = self.number_named(space)?;
        Ok(Some(prefix))
    }

    // The prefix of a label's namespace, in the same way.
    #[inline(always)]
    pub(crate) fn number_label(&mut self, label: Label<'a>) -> Result<Option<Prefix>, NoMemory>
        ensures added { OnOk result (
            AddsSpaces self.old ((label_name label.entry).space ∷ []) self.new) }
        ensures extends { OnOk result (IsFront self.old self.new) }
        ensures numbered { OnOk result (IsNumbered self.new (label_name label.entry).space) }
        ensures prefix { IfOk result (λ prefix.
            prefix ≡ lookup (bytes_eq (label_name label.entry).space) (name_prefixes self.new)) }
    {
        match label {
            Label::Bare(_) => Ok(self.of_none()),
            Label::Named(name) => self.number(&name.space),
        }
    }

    fn number_named(&mut self, space: &'a Text) -> Result<Prefix, NoMemory>
        requires some { space.now ≢ [] }
        ensures added { OnOk result (AddsSpaces self.old (space.now ∷ []) self.new) }
        ensures extends { OnOk result (IsFront self.old self.new) }
        ensures numbered { OnOk result (IsNumbered self.new space.now) }
        ensures prefix { IfOk result (λ prefix.
            Some prefix ≡ lookup (bytes_eq space.now) (name_prefixes self.new)) }
    {
        let next = Prefix::of_number(self.order.len() + 1);
        self.order.reserve(1)?;
        let bytes = space.as_bytes();
        let key = Key::new(bytes);
        if let Some(prefix) = label_of(&mut self.labels, key, next.copy())? {
            self.last = bytes;
            self.last_prefix = prefix.copy();
            return Ok(prefix);
        }
        self.order.push_reserved(space);
        self.last = bytes;
        self.last_prefix = next.copy();
        Ok(next)
    }
}

// The prefix that a namespace has. One that has none is given this one, for the next time.
fn label_of<'a>(
    labels: &mut BTreeMap<Key<'a>, Prefix>,
    key: Key<'a>,
    next: Prefix,
) -> Result<Option<Prefix>, NoMemory>
    ensures found { IfOk result (λ label. label ≡ get key_order labels.old key.entry) }
    ensures put { IfOk result (λ label. Updates key_order labels.old labels.new key.entry
        (Some (unwrap_or label next))) }
    ensures err { OnErr result (IsUnchanged labels.old labels.new) }
{
    match labels.entry(key)? {
        Entry::Occupied(entry) => Ok(Some(entry.into_mut().copy())),
        Entry::Vacant(entry) => {
            entry.insert(next);
            Ok(None)
        }
    }
}
