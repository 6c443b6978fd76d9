//! What is notified.
ghost use Rattle.std.specs.Prelude.{◌≡◌, ◌++◌, map, IfOk, OnOk};
ghost use Rattle.ifmap_publish.specs.Notes.{note_of, notes_of, notes_of_op};

use crate::authors::Author;
use ifmap_elem::Copied;
use ifmap_ident::{Item, SharedItem};
use ifmap_meta::{Life, Metadata};
use ifmap_requests::PublishOp;
use ifmap_rows::Note;
use std::alloc::{AllocError as NoMemory, Global};

// What the operations notify, in their order.
pub(crate) fn notes_of(
    alloc: Global,
    author: &Author,
    ops: &[PublishOp],
) -> Result<Vec<Note>, NoMemory>
    ensures { IfOk result (λ notes. notes.items ≡ notes_of author.now ops.now) }
{
    let mut notes = Vec::new(alloc);
    for op in ops {
        add_notes_of(alloc, author, op, &mut notes)?;
    }
    Ok(notes)
}

// Appends what one operation notifies.
fn add_notes_of(
    alloc: Global,
    author: &Author,
    op: &PublishOp,
    notes: &mut Vec<Note>,
) -> Result<(), NoMemory>
    ensures { OnOk result (notes.new.items ≡ notes.old.items ++ notes_of_op author.now op.now) }
{
    match op {
        PublishOp::Notify { item, elements } => {
            add_notes(alloc, author, item, elements.as_slice(), notes)
        }
        PublishOp::Update { .. } => Ok(()),
        PublishOp::Delete { .. } => Ok(()),
    }
}

// Appends elements on one item.
fn add_notes(
    alloc: Global,
    author: &Author,
    item: &Item,
    elements: &[Metadata],
    notes: &mut Vec<Note>,
) -> Result<(), NoMemory>
    ensures { OnOk result (notes.new.items
        ≡ notes.old.items ++ map (note_of author.now item.now) elements.now) }
{
    let item = SharedItem::new(alloc, item.copy(alloc)?)?;
    for metadata in elements {
        notes.push(note_of(alloc, author, &item, metadata)?)?;
    }
    Ok(())
}

// One element on an item. How long it would be stored is of no account.
fn note_of(
    alloc: Global,
    author: &Author,
    item: &SharedItem,
    metadata: &Metadata,
) -> Result<Note, NoMemory>
    ensures { IfOk result (λ note. note ≡ note_of author.now item.now metadata.now) }
{
    let stamped = metadata.stamp(alloc, author.client, author.moment, Life::Forever)?;
    Ok(Note {
        item: item.share()?,
        element: stamped.element,
    })
}
