//! The edits of items while operations are applied.
ghost use Rattle.std.specs.Prelude.{◌≡◌, false, List, IfOk, OnOk};
ghost use Rattle.std.specs.BTreeMap.{get};
ghost use Rattle.std.specs.List.{AllByRecursion};
ghost use Rattle.ifmap_ident.specs.declared.items.Item.{Item};
ghost use Rattle.ifmap_ident.specs.Items.{item_order, same_item};
ghost use Rattle.ifmap_rows.specs.ifmap_plans.Plans.{AreWhole};
ghost use Rattle.ifmap_requests.specs.Fit.{IsFitOp};
ghost use Rattle.ifmap_view.specs.declared.attachments.Attachment.{Attachment};
ghost use Rattle.ifmap_view.specs.Attachments.{IsGraph};
ghost use Rattle.ifmap_view.specs.Rows.{stored_on};
ghost use Rattle.ifmap_publish.specs.Apply.{apply};
ghost use Rattle.ifmap_publish.specs.OnItems.{apply_op_on};
ghost use Rattle.ifmap_publish.specs.Working.{AreEdits, edit_or, working_rows};

use crate::applying::{apply_op, item_of_op};
use crate::authors::Author;
use crate::edits::{Edit, no_edit};
use ifmap_elem::Copied;
use ifmap_ident::Item;
use ifmap_requests::PublishOp;
use ifmap_rows::Keyed;
use std::alloc::{AllocError as NoMemory, Global};
use std::collections::BTreeMap;

// The edit of each item that an operation names, after all of them.
pub(crate) fn apply_all<V: Keyed>(
    alloc: Global,
    view: &V,
    author: &Author,
    ops: &[PublishOp],
) -> Result<BTreeMap<Item, Edit>, NoMemory>
    requires graph { IsGraph (V.rows view.now) }
    requires whole { AreWhole (V.rows view.now) }
    requires ops { AllByRecursion IsFitOp ops.now }
    ensures edits { IfOk result (λ edits. AreEdits (V.rows view.now) edits.entries) }
    ensures applied { IfOk result (λ edits. (x : Item)
        → working_rows (V.rows view.now) (get item_order edits) x
        ≡ stored_on x (apply (V.rows view.now) author.now ops.now)) }
{
    let mut edits = BTreeMap::new(alloc);
    for op in ops {
        apply_one(alloc, view, author, op, &mut edits)?;
    }
    Ok(edits)
}

// One operation.
fn apply_one<V: Keyed>(
    alloc: Global,
    view: &V,
    author: &Author,
    op: &PublishOp,
    edits: &mut BTreeMap<Item, Edit>,
) -> Result<(), NoMemory>
    requires graph { IsGraph (V.rows view.now) }
    requires whole { AreWhole (V.rows view.now) }
    requires fit { IsFitOp op.now }
    requires edits { AreEdits (V.rows view.now) edits.old.entries }
    ensures edits { OnOk result (AreEdits (V.rows view.now) edits.new.entries) }
    ensures applied { OnOk result ((x : Item)
        → working_rows (V.rows view.now) (get item_order edits.new) x
        ≡ apply_op_on x author.now op.now
        (working_rows (V.rows view.now) (get item_order edits.old) x)) }
{
    if let PublishOp::Notify { .. } = op {
        return Ok(());
    }
    let item = item_of_op(op);
    let mut edit = take_edit(alloc, item, edits);
    apply_op(alloc, view, author, op, &mut edit)?;
    edits.insert(item.copy(alloc)?, edit)?;
    Ok(())
}

// Takes out the edit of an item; where no operation has named it, nothing is taken or put.
fn take_edit(alloc: Global, item: &Item, edits: &mut BTreeMap<Item, Edit>) -> Edit
    ensures edit { result ≡ edit_or (get item_order edits.old item.now) }
    ensures left { (rows : List Attachment) → AreEdits rows edits.old.entries
        → AreEdits rows edits.new.entries }
    ensures others { (x : Item) → same_item item.now x ≡ false
        → get item_order edits.new x ≡ get item_order edits.old x }
{
    match edits.remove(item) {
        Some(edit) => edit,
        None => no_edit(alloc),
    }
}
