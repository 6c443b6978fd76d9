//! Printing: the canonical bytes of an element.
ghost use Rattle.std.specs.Prelude.{◌≡◌, ◌++◌, ◌+◌, List, ℕ, IfOk, OnOk, map};
ghost use Rattle.std.specs.List.{AllByRecursion, flat_map};
ghost use Rattle.std.specs.Map.{lookup};
ghost use Rattle.std.specs.Str.{bytes_eq};
ghost use Rattle.ifmap_elem.specs.Arranged.{sort_attributes};
ghost use Rattle.ifmap_elem.specs.Fit.{IsDeclarable, IsFit};
ghost use Rattle.ifmap_elem.specs.Namespaces.{name_prefixes, numbered_prefixes};
ghost use Rattle.ifmap_lemmas.specs.Numerals.{numeral};
ghost use Rattle.ifmap_elem.specs.Outlines.{label_name, outline_element};
ghost use Rattle.ifmap_elem.specs.printer.Contents.{attributes_in, children_in, root_of};
ghost use Rattle.ifmap_elem.specs.printer.Pieces.{AddsAttribute, AddsAttributes, AddsChild, AddsContent, AddsElement, AddsName, AreFinal};
ghost use Rattle.ifmap_elem.specs.Spells.{Spells};
ghost use Rattle.ifmap_elem.specs.Canonical.{after_prefix, canonical_bytes, canonical_reading, declaration_bytes};
ghost use Rattle.ifmap_elem.specs.Canonical.{written_bytes, written_reading};

use crate::elements::{Attribute, Child, Element, Name};
use crate::escaping::{TextPlace, write_escaped};
use crate::lists::Many;
use crate::numbering::{NumberedPrefixes, Prefix, write_numbered};
use crate::outline_attributes::OutlineAttribute;
use crate::outlines::{Label, Outline, Piece};
use crate::outlining::{write_outline_attributes, write_pieces};
use crate::sorting::{are_sorted, attributes_in_order};
use crate::texts::Text;
use std::alloc::{AllocError as NoMemory, Global};

/// The canonical bytes of an element: its one byte list, by which elements are compared, kept and
/// sent. The one error is want of memory.
pub fn canonical(alloc: Global, element: &Element) -> Result<Many<u8>, NoMemory>
    ensures bytes { IfOk result (λ bytes. bytes ≡ canonical_bytes element.now) }
    ensures spelled { IsFit element.now →
        IfOk result (λ bytes. Spells bytes (canonical_reading element.now)) }
{
    let content = RootContent::Element(&element.attributes, &element.children);
    print_root(alloc, Label::Named(&element.name), content, &[])
}

/// The canonical bytes with declarations of the prefixes `f1`, `f2` and so on for these namespaces
/// at the root, after the element's own. The one error is want of memory.
pub fn written(alloc: Global, element: &Element, spaces: &Many<Text>) -> Result<Many<u8>, NoMemory>
    ensures bytes { IfOk result (λ bytes. bytes ≡ written_bytes element.now spaces.now) }
    ensures spelled { IsFit element.now → AllByRecursion IsDeclarable spaces.now →
        IfOk result (λ bytes. Spells bytes (written_reading element.now spaces.now)) }
{
    let content = RootContent::Element(&element.attributes, &element.children);
    let spaces = spaces.as_slice();
    print_root(alloc, Label::Named(&element.name), content, spaces)
}

/// The canonical bytes of the element that an outline stands for, as `canonical` makes them; nothing
/// that is borrowed is copied but into these bytes. The one error is want of memory.
pub fn canonical_outline(alloc: Global, outline: &Outline<'_>) -> Result<Many<u8>, NoMemory>
    ensures bytes { IfOk result (λ bytes. bytes ≡ canonical_bytes (outline_element outline.now)) }
    ensures spelled { IsFit (outline_element outline.now) →
        IfOk result (λ bytes. Spells bytes (canonical_reading (outline_element outline.now))) }
{
    let content = RootContent::Outline(&outline.attributes, &outline.pieces);
    print_root(alloc, outline.label, content, &[])
}

// The attributes of a root, and what stands in it.
#[derive(Clone, Copy)]
pub(crate) enum RootContent<'a, 'b> {
    Element(&'a Many<Attribute>, &'a Many<Child>),
    Outline(&'a Many<OutlineAttribute<'b>>, &'a Many<Piece<'b>>),
}

fn print_root<'a, 'b>(
    alloc: Global,
    label: Label<'a>,
    content: RootContent<'a, 'b>,
    spaces: &[Text],
) -> Result<Many<u8>, NoMemory>
    ensures { IfOk result (λ bytes.
        bytes ≡ written_bytes (root_of (label_name label.entry) content.entry) spaces.now) }
{
    let mut prefixes = NumberedPrefixes::new(alloc)?;
    let prefix = prefixes.number_label(label)?;
    let mut inside = Vec::new(alloc);
    write_root_attributes(alloc, &mut prefixes, content, &mut inside)?;
    write_inside(alloc, &mut prefixes, &prefix, label, content, &mut inside)?;
    let mut head = Vec::new(alloc);
    head.extend_from_slice(b"<")?;
    write_name(&prefix, label.local_part(), &mut head)?;
    write_declarations("n", prefixes.spaces(), &mut head)?;
    let given = references(alloc, spaces)?;
    write_declarations("f", &given, &mut head)?;
    drop(inside.splice(0..0, head)?);
    Ok(Many(inside))
}

fn write_root_attributes<'a, 'b>(
    alloc: Global,
    prefixes: &mut NumberedPrefixes<'a>,
    content: RootContent<'a, 'b>,
    out: &mut Vec<u8>,
) -> Result<(), NoMemory>
    ensures { OnOk result (
        AddsAttributes (sort_attributes (attributes_in content.entry)) prefixes.old prefixes.new
        out.old.items out.new.items) }
{
    match content {
        RootContent::Element(attributes, _) => {
            write_attributes(alloc, prefixes, attributes, out)?;
            Ok(())
        }
        RootContent::Outline(attributes, _) => {
            write_outline_attributes(alloc, prefixes, attributes, out)?;
            Ok(())
        }
    }
}

// What follows the attributes of a root of this name, which is written with this prefix.
fn write_inside<'a, 'b>(
    alloc: Global,
    prefixes: &mut NumberedPrefixes<'a>,
    prefix: &Option<Prefix>,
    label: Label<'a>,
    content: RootContent<'a, 'b>,
    out: &mut Vec<u8>,
) -> Result<(), NoMemory>
    ensures { OnOk result (((final : List (List ℕ)) → AreFinal prefixes.old final →
        prefix.now ≡ lookup (bytes_eq (label_name label.entry).space) (name_prefixes final)) →
        AddsContent (label_name label.entry) (children_in content.entry) prefixes.old prefixes.new
        out.old.items out.new.items) }
{
    match content {
        RootContent::Element(_, children) => {
            write_content(alloc, prefixes, prefix, label, children, out)?;
            Ok(())
        }
        RootContent::Outline(_, pieces) => {
            write_pieces(alloc, prefixes, prefix, label, pieces, out)?;
            Ok(())
        }
    }
}

#[cycle(printing)]
pub(crate) fn write_element<'a>(
    alloc: Global,
    prefixes: &mut NumberedPrefixes<'a>,
    element: &'a Element,
    out: &mut Vec<u8>,
) -> Result<(), NoMemory>
    ensures { OnOk result (
        AddsElement element.now prefixes.old prefixes.new out.old.items out.new.items) }
{
    out.extend_from_slice(b"<")?;
    let prefix = write_label(prefixes, Label::Named(&element.name), out)?;
    write_attributes(alloc, prefixes, &element.attributes, out)?;
    write_content(
        alloc,
        prefixes,
        &prefix,
        Label::Named(&element.name),
        &element.children,
        out,
    )?;
    Ok(())
}

// What follows the attributes of an element of this name, which is written with this prefix.
#[cycle(printing)]
fn write_content<'a>(
    alloc: Global,
    prefixes: &mut NumberedPrefixes<'a>,
    prefix: &Option<Prefix>,
    label: Label<'_>,
    children: &'a Many<Child>,
    out: &mut Vec<u8>,
) -> Result<(), NoMemory>
    ensures { OnOk result (((final : List (List ℕ)) → AreFinal prefixes.old final →
        prefix.now ≡ lookup (bytes_eq (label_name label.entry).space) (name_prefixes final)) →
        AddsContent (label_name label.entry) children.now prefixes.old prefixes.new
        out.old.items out.new.items) }
{
    if children.is_empty() {
        out.extend_from_slice(b"/>")?;
        return Ok(());
    }
    out.extend_from_slice(b">")?;
    for child in children.as_slice() {
        write_child(alloc, prefixes, child, out)?;
    }
    out.extend_from_slice(b"</")?;
    write_name(prefix, label.local_part(), out)?;
    out.extend_from_slice(b">")?;
    Ok(())
}

#[cycle(printing)]
fn write_child<'a>(
    alloc: Global,
    prefixes: &mut NumberedPrefixes<'a>,
    child: &'a Child,
    out: &mut Vec<u8>,
) -> Result<(), NoMemory>
    ensures { OnOk result (
        AddsChild child.now prefixes.old prefixes.new out.old.items out.new.items) }
{
    match child {
        Child::Element(element) => {
            write_element(alloc, prefixes, element, out)?;
            Ok(())
        }
        Child::Text(text) => {
            write_escaped(TextPlace::Content, text.as_bytes(), out)?;
            Ok(())
        }
    }
}

pub(crate) fn write_attributes<'a>(
    alloc: Global,
    prefixes: &mut NumberedPrefixes<'a>,
    attributes: &'a Many<Attribute>,
    out: &mut Vec<u8>,
) -> Result<(), NoMemory>
    ensures { OnOk result (
        AddsAttributes (sort_attributes attributes.now) prefixes.old prefixes.new
        out.old.items out.new.items) }
{
    if are_sorted(attributes.as_slice()) {
        return write_each(prefixes, attributes.as_slice(), out);
    }
    let order = attributes_in_order(alloc, attributes)?;
    for attribute in &order {
        write_attribute(prefixes, *attribute, out)?;
    }
    Ok(())
}

// Writes attributes in the order in which they stand.
fn write_each<'a>(
    prefixes: &mut NumberedPrefixes<'a>,
    attributes: &'a [Attribute],
    out: &mut Vec<u8>,
) -> Result<(), NoMemory>
    ensures { OnOk result (
        AddsAttributes attributes.now prefixes.old prefixes.new out.old.items out.new.items) }
{
    for attribute in attributes {
        write_attribute(prefixes, attribute, out)?;
    }
    Ok(())
}

#[inline(always)]
fn write_attribute<'a>(
    prefixes: &mut NumberedPrefixes<'a>,
    attribute: &'a Attribute,
    out: &mut Vec<u8>,
) -> Result<(), NoMemory>
    ensures { OnOk result (
        AddsAttribute attribute.now prefixes.old prefixes.new out.old.items out.new.items) }
{
    out.extend_from_slice(b" ")?;
    write_label(prefixes, Label::Named(&attribute.name), out)?;
    out.extend_from_slice(b"=\"")?;
    write_escaped(TextPlace::Value, attribute.value.as_bytes(), out)?;
    out.extend_from_slice(b"\"")?;
    Ok(())
}

// Writes a name whose namespace is numbered if it is new. Its prefix.
#[inline(always)]
pub(crate) fn write_label<'a>(
    prefixes: &mut NumberedPrefixes<'a>,
    label: Label<'a>,
    out: &mut Vec<u8>,
) -> Result<Option<Prefix>, NoMemory>
    ensures added { OnOk result (
        AddsName (label_name label.entry) prefixes.old prefixes.new out.old.items out.new.items) }
    ensures prefix { IfOk result (λ prefix. (final : List (List ℕ)) → AreFinal prefixes.new final →
        prefix ≡ lookup (bytes_eq (label_name label.entry).space) (name_prefixes final)) }
{
    let prefix = prefixes.number_label(label)?;
    write_name(&prefix, label.local_part(), out)?;
    Ok(prefix)
}

#[inline(always)]
pub(crate) fn write_name(
    prefix: &Option<Prefix>,
    local: &str,
    out: &mut Vec<u8>,
) -> Result<(), NoMemory>
    ensures { OnOk result (out.new.items ≡ out.old.items ++ after_prefix prefix.now local.now) }
{
    if let Some(prefix) = prefix {
        prefix.write(out)?;
        out.extend_from_slice(b":")?;
    }
    out.extend_from_slice(local.as_bytes())?;
    Ok(())
}

// References to the texts, in order.
fn references(alloc: Global, texts: &[Text]) -> Result<Vec<&Text>, NoMemory>
    ensures { IfOk result (λ made. map (λ s. s.now) made.items ≡ texts.now) }
{
    let mut made = Vec::with_capacity(alloc, texts.len())?;
    for text in texts {
        made.push(text)?;
    }
    Ok(made)
}

// Declares a prefix of this letter and a number, counted from 1, for each namespace.
fn write_declarations(letter: &str, spaces: &[&Text], out: &mut Vec<u8>) -> Result<(), NoMemory>
    ensures { OnOk result (out.new.items ≡ out.old.items ++ flat_map declaration_bytes
        (numbered_prefixes letter.now 1 (map (λ s. s.now) spaces.now))) }
{
    let mut count = 0;
    for space in spaces {
        count += 1;
        write_declaration(letter, count, *space, out)?;
    }
    Ok(())
}

fn write_declaration(
    letter: &str,
    number: usize,
    space: &Text,
    out: &mut Vec<u8>,
) -> Result<(), NoMemory>
    ensures { OnOk result (out.new.items ≡ out.old.items ++
        declaration_bytes (space.now, letter.now ++ numeral number)) }
{
    out.extend_from_slice(b" xmlns:")?;
    write_numbered(letter, number, out)?;
    out.extend_from_slice(b"=\"")?;
    write_escaped(TextPlace::Value, space.as_bytes(), out)?;
    out.extend_from_slice(b"\"")?;
    Ok(())
}
