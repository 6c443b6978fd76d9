//! What a publish changes.
ghost use Rattle.std.specs.Prelude.{◌≡◌, [], ◌∷◌, ◌++◌, IfOk, OnOk};
ghost use Rattle.std.specs.Bool.{OnFalse, OnTrue};
ghost use Rattle.std.specs.List.{AllByRecursion};
ghost use Rattle.std.specs.List.Sorted.{IsStrictlySortedBy};
ghost use Rattle.std.specs.Map.{keys_of};
ghost use Rattle.ifmap_ident.specs.Items.{item_order};
ghost use Rattle.ifmap_rows.specs.ifmap_plans.declared.plans.ItemChange.{ItemChange};
ghost use Rattle.ifmap_rows.specs.ifmap_plans.Plans.{AreExact, AreWhole, Fits, IsAfter, IsChange};
ghost use Rattle.ifmap_requests.specs.Fit.{IsFitOp};
ghost use Rattle.ifmap_view.specs.Attachments.{IsGraph};
ghost use Rattle.ifmap_publish.specs.Apply.{apply};
ghost use Rattle.ifmap_publish.specs.Notes.{notes_of};
ghost use Rattle.ifmap_publish.specs.Working.{IsRising, changes_by, kept_change};

use crate::authors::Author;
use crate::differences::difference;
use crate::edits::Edit;
use crate::notes::notes_of;
use crate::working::apply_all;
use ifmap_elem::Many;
use ifmap_ident::Item;
use ifmap_requests::PublishOp;
use ifmap_rows::{ItemChange, Keyed, Plan};
use ifmap_view::Row;
use std::alloc::{AllocError as NoMemory, Global};
use std::collections::BTreeMap;

/// What the operations of a publish change in a graph, and what they notify. Each item that changes is told
/// once, with what goes and what comes after all operations; an item on which all stays is not told. All
/// memory is taken here, and want of it is the one error.
pub fn plan<V: Keyed>(
    alloc: Global,
    view: &V,
    ops: &Many<PublishOp>,
    author: &Author,
) -> Result<Plan, NoMemory>
    requires graph { IsGraph (V.rows view.now) }
    requires whole { AreWhole (V.rows view.now) }
    requires ops { AllByRecursion IsFitOp ops.now }
    ensures fits { IfOk result (λ plan. Fits (V.rows view.now) plan.changes) }
    ensures applies { IfOk result (λ plan. IsAfter plan.changes (V.rows view.now)
        (apply (V.rows view.now) author.now ops.now)) }
    ensures exact { IfOk result (λ plan. AreExact (V.rows view.now)
        (apply (V.rows view.now) author.now ops.now) plan.changes) }
    ensures changes { IfOk result (λ plan. AllByRecursion IsChange plan.changes) }
    ensures notes { IfOk result (λ plan. plan.notes ≡ notes_of author.now ops.now) }
{
    let edits = apply_all(alloc, view, author, ops.as_slice())?;
    let changes = changes_by(alloc, edits)?;
    let notes = notes_of(alloc, author, ops.as_slice())?;
    Ok(Plan {
        changes: Many(changes),
        notes: Many(notes),
    })
}

// The changes of the items on which something goes or comes.
fn changes_by(alloc: Global, edits: BTreeMap<Item, Edit>) -> Result<Vec<ItemChange>, NoMemory>
    requires { AllByRecursion IsRising edits.entries }
    ensures changes { IfOk result (λ changes. changes.items ≡ changes_by edits.entries) }
    ensures ordered { IsStrictlySortedBy item_order (keys_of edits.entries) }
{
    let mut changes = Vec::with_capacity(alloc, edits.len())?;
    for entry in edits {
        add_change(alloc, entry, &mut changes)?;
    }
    Ok(changes)
}

// Appends the change of an item, where something goes or comes: what is taken and put again is in neither
// list.
fn add_change(
    alloc: Global,
    entry: (Item, Edit),
    changes: &mut Vec<ItemChange>,
) -> Result<(), NoMemory>
    requires { IsRising entry }
    ensures { OnOk result (changes.new.items ≡ changes.old.items ++ changes_by (entry ∷ [])) }
{
    let (item, edit) = entry;
    let removed = difference(alloc, edit.taken.as_slice(), edit.put.as_slice())?;
    let added = difference(alloc, edit.put.as_slice(), edit.taken.as_slice())?;
    if !moves_something(&removed, &added) {
        return Ok(());
    }
    changes.push(ItemChange {
        item,
        removed: Many(removed),
        added: Many(added),
    })?;
    Ok(())
}

// Whether something goes or comes.
pub(crate) fn moves_something(removed: &[Row], added: &[Row]) -> bool
    ensures yes { OnTrue result ((c : ItemChange)
        → kept_change c (removed.now ++ added.now) ≡ c ∷ []) }
    ensures no { OnFalse result ((c : ItemChange)
        → kept_change c (removed.now ++ added.now) ≡ []) }
{
    if removed.is_empty() {
        return !added.is_empty();
    }
    true
}
