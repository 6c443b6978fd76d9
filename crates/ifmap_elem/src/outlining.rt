//! Printing of outlines, as elements are printed.
ghost use Rattle.std.specs.Prelude.{◌≡◌, List, ℕ, OnOk, map};
ghost use Rattle.std.specs.Map.{lookup};
ghost use Rattle.std.specs.Str.{bytes_eq};
ghost use Rattle.ifmap_elem.specs.Arranged.{sort_attributes};
ghost use Rattle.ifmap_elem.specs.Namespaces.{name_prefixes};
ghost use Rattle.ifmap_elem.specs.Outlines.{label_name, outline_element, outline_child};
ghost use Rattle.ifmap_elem.specs.printer.Pieces.{AddsAttribute, AddsAttributes, AddsChild, AddsContent, AddsElement, AreFinal};

use crate::escaping::{TextPlace, write_escaped};
use crate::lists::Many;
use crate::numbering::{NumberedPrefixes, Prefix};
use crate::outline_attributes::OutlineAttribute;
use crate::outlines::{Label, Outline, Piece};
use crate::printing::{write_element, write_label, write_name};
use crate::sorting::{are_outline_attributes_sorted, outline_attributes_in_order};
use std::alloc::{AllocError as NoMemory, Global};

// What follows the attributes of an element of this name, which is written with this prefix.
#[cycle(outlining)]
pub(crate) fn write_pieces<'a, 'b>(
    alloc: Global,
    prefixes: &mut NumberedPrefixes<'a>,
    prefix: &Option<Prefix>,
    label: Label<'a>,
    pieces: &'a Many<Piece<'b>>,
    out: &mut Vec<u8>,
) -> Result<(), NoMemory>
    ensures { OnOk result (((final : List (List ℕ)) → AreFinal prefixes.old final →
        prefix.now ≡ lookup (bytes_eq (label_name label.entry).space) (name_prefixes final)) →
        AddsContent (label_name label.entry) (map outline_child pieces.now)
        prefixes.old prefixes.new out.old.items out.new.items) }
{
    if pieces.is_empty() {
        out.extend_from_slice(b"/>")?;
        return Ok(());
    }
    out.extend_from_slice(b">")?;
    for piece in pieces.as_slice() {
        write_piece(alloc, prefixes, piece, out)?;
    }
    out.extend_from_slice(b"</")?;
    write_name(prefix, label.local_part(), out)?;
    out.extend_from_slice(b">")?;
    Ok(())
}

#[cycle(outlining)]
fn write_piece<'a, 'b>(
    alloc: Global,
    prefixes: &mut NumberedPrefixes<'a>,
    piece: &'a Piece<'b>,
    out: &mut Vec<u8>,
) -> Result<(), NoMemory>
    ensures { OnOk result (AddsChild (outline_child piece.now) prefixes.old prefixes.new
        out.old.items out.new.items) }
{
    match piece {
        Piece::Text(text) => {
            write_escaped(TextPlace::Content, text.as_bytes(), out)?;
            Ok(())
        }
        Piece::Shared(element) => {
            write_element(alloc, prefixes, *element, out)?;
            Ok(())
        }
        Piece::Outline(outline) => {
            write_outline(alloc, prefixes, outline, out)?;
            Ok(())
        }
    }
}

#[cycle(outlining)]
fn write_outline<'a, 'b>(
    alloc: Global,
    prefixes: &mut NumberedPrefixes<'a>,
    outline: &'a Outline<'b>,
    out: &mut Vec<u8>,
) -> Result<(), NoMemory>
    ensures { OnOk result (AddsElement (outline_element outline.now) prefixes.old prefixes.new
        out.old.items out.new.items) }
{
    out.extend_from_slice(b"<")?;
    let label = outline.label;
    let prefix = write_label(prefixes, label, out)?;
    write_outline_attributes(alloc, prefixes, &outline.attributes, out)?;
    write_pieces(alloc, prefixes, &prefix, label, &outline.pieces, out)?;
    Ok(())
}

pub(crate) fn write_outline_attributes<'a, 'b>(
    alloc: Global,
    prefixes: &mut NumberedPrefixes<'a>,
    attributes: &'a Many<OutlineAttribute<'b>>,
    out: &mut Vec<u8>,
) -> Result<(), NoMemory>
    ensures { OnOk result (
        AddsAttributes (sort_attributes attributes.now) prefixes.old prefixes.new
        out.old.items out.new.items) }
{
    if are_outline_attributes_sorted(attributes.as_slice()) {
        return write_each(prefixes, attributes.as_slice(), out);
    }
    let order = outline_attributes_in_order(alloc, attributes)?;
    for attribute in &order {
        write_outline_attribute(prefixes, *attribute, out)?;
    }
    Ok(())
}

// Writes attributes in the order in which they stand.
fn write_each<'a, 'b>(
    prefixes: &mut NumberedPrefixes<'a>,
    attributes: &'a [OutlineAttribute<'b>],
    out: &mut Vec<u8>,
) -> Result<(), NoMemory>
    ensures { OnOk result (
        AddsAttributes attributes.now prefixes.old prefixes.new out.old.items out.new.items) }
{
    for attribute in attributes {
        write_outline_attribute(prefixes, attribute, out)?;
    }
    Ok(())
}

#[inline(always)]
fn write_outline_attribute<'a, 'b>(
    prefixes: &mut NumberedPrefixes<'a>,
    attribute: &'a OutlineAttribute<'b>,
    out: &mut Vec<u8>,
) -> Result<(), NoMemory>
    ensures { OnOk result (
        AddsAttribute attribute.now prefixes.old prefixes.new out.old.items out.new.items) }
{
    out.extend_from_slice(b" ")?;
    write_label(prefixes, attribute.label(), out)?;
    out.extend_from_slice(b"=\"")?;
    write_escaped(TextPlace::Value, attribute.value_bytes(), out)?;
    out.extend_from_slice(b"\"")?;
    Ok(())
}
