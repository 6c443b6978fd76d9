//! One operation on its item.
ghost use Rattle.std.specs.Prelude.{◌≡◌, IfOk, OnOk, map};
ghost use Rattle.std.specs.List.{AllByRecursion};
ghost use Rattle.ifmap_meta.specs.Whole.{IsMetadata, IsWhole};
ghost use Rattle.ifmap_rows.specs.ifmap_plans.Plans.{AreWhole};
ghost use Rattle.ifmap_requests.specs.Fit.{IsFitOp};
ghost use Rattle.ifmap_view.specs.Attachments.{IsGraph};
ghost use Rattle.ifmap_view.specs.Rows.{stored_on};
ghost use Rattle.ifmap_publish.specs.Apply.{life_of, stored_for};
ghost use Rattle.ifmap_publish.specs.OnItems.{op_item, op_on};
ghost use Rattle.ifmap_publish.specs.Working.{EditMakes, IsEdit, list_by};

use crate::authors::Author;
use crate::edits::{Edit, attach_each, delete};
use ifmap_ident::Item;
use ifmap_meta::{Life, Metadata};
use ifmap_requests::PublishOp;
use ifmap_rows::Keyed;
use ifmap_view::Row;
use std::alloc::{AllocError as NoMemory, Global};

// The item of an operation.
pub(crate) fn item_of_op(op: &PublishOp) -> &Item
    ensures { result.now ≡ op_item op.now }
{
    match op {
        PublishOp::Update { item, .. } => item,
        PublishOp::Notify { item, .. } => item,
        PublishOp::Delete { item, .. } => item,
    }
}

// An operation on its item.
pub(crate) fn apply_op<V: Keyed>(
    alloc: Global,
    view: &V,
    author: &Author,
    op: &PublishOp,
    edit: &mut Edit,
) -> Result<(), NoMemory>
    requires graph { IsGraph (V.rows view.now) }
    requires whole { AreWhole (V.rows view.now) }
    requires fit { IsFitOp op.now }
    requires edit { IsEdit (stored_on (op_item op.now) (V.rows view.now)) edit.old }
    ensures { OnOk result (EditMakes (stored_on (op_item op.now) (V.rows view.now)) edit.new
        (op_on author.now op.now
        (list_by edit.old (stored_on (op_item op.now) (V.rows view.now))))) }
{
    match op {
        PublishOp::Update {
            item,
            elements,
            forever,
        } => {
            let life = life_of(author.serial, *forever);
            let rows = rows_of_elements(alloc, author, life, elements.as_slice())?;
            attach_each(alloc, view, item, &rows, edit)?;
            Ok(())
        }
        PublishOp::Notify { .. } => Ok(()),
        PublishOp::Delete { item, filter } => delete(alloc, view, item, filter, edit),
    }
}

// How long an element is to stay.
fn life_of(serial: u64, forever: bool) -> Life
    ensures { result ≡ life_of serial forever }
{
    if forever {
        Life::Forever
    } else {
        Life::Session(serial)
    }
}

// Elements as they are stored.
fn rows_of_elements(
    alloc: Global,
    author: &Author,
    life: Life,
    elements: &[Metadata],
) -> Result<Vec<Row>, NoMemory>
    requires { AllByRecursion IsMetadata elements.now }
    ensures rows { IfOk result (λ rows.
        rows.items ≡ map (stored_for author.now life) elements.now) }
    ensures whole { IfOk result (λ rows. AllByRecursion IsWhole rows.items) }
{
    let mut rows = Vec::with_capacity(alloc, elements.len())?;
    for metadata in elements {
        rows.push(row_of_element(alloc, author, life, metadata)?)?;
    }
    Ok(rows)
}

// An element as it is stored.
fn row_of_element(
    alloc: Global,
    author: &Author,
    life: Life,
    metadata: &Metadata,
) -> Result<Row, NoMemory>
    ensures row { IfOk result (λ row. row ≡ stored_for author.now life metadata.now) }
    ensures whole { IsMetadata metadata.now → IfOk result IsWhole }
{
    Row::new(
        alloc,
        metadata.stamp(alloc, author.client, author.moment, life)?,
    )
}
