//! What goes when sessions end, or a publisher is purged.
ghost use Rattle.std.specs.Prelude.{◌≡◌, ◌+◌, ◌≤◌, [], ◌∷◌, ◌++◌, IfOk, OnOk, length};
ghost use Rattle.std.specs.List.{AllByRecursion, filter};
ghost use Rattle.ifmap_ident.specs.Items.{IsCanonItem};
ghost use Rattle.ifmap_rows.specs.ifmap_plans.After.{items_of};
ghost use Rattle.ifmap_rows.specs.ifmap_plans.Plans.{AreExact, AreWhole, Fits, IsAfter, IsChange};
ghost use Rattle.ifmap_view.specs.Attachments.{IsGraph};
ghost use Rattle.ifmap_view.specs.Rows.{stored_on};
ghost use Rattle.ifmap_publish.specs.Retract.{ends_with, is_of, retract, retract_on};
ghost use Rattle.ifmap_publish.specs.Working.{changes_to};

use crate::publishing::moves_something;
use crate::who::Who;
use ifmap_elem::{Copied, Many};
use ifmap_ident::Item;
use ifmap_meta::{Life, Stored};
use ifmap_rows::{ItemChange, Items, Plan};
use ifmap_steps::Steps;
use ifmap_view::{Row, View};
use std::alloc::{AllocError as NoMemory, Global};
use std::sync::ledger::Ledger;

/// What goes from a graph when sessions end, or a publisher is purged. Each item from which something goes
/// is told once, and nothing is notified. The graph hands out each item that carries something, one step
/// each, and one step more. All memory is taken here, and want of it is the one error.
pub fn retract<G: Items, L: Ledger>(
    alloc: Global,
    graph: &G,
    who: &Who,
    steps: &mut Steps<L>,
) -> Result<Plan, NoMemory>
    requires graph { IsGraph (G.rows graph.now) }
    requires whole { AreWhole (G.rows graph.now) }
    ensures fits { IfOk result (λ plan. Fits (G.rows graph.now) plan.changes) }
    ensures applies { IfOk result (λ plan. IsAfter plan.changes (G.rows graph.now)
        (retract who.now (G.rows graph.now))) }
    ensures exact { IfOk result (λ plan. AreExact (G.rows graph.now)
        (retract who.now (G.rows graph.now)) plan.changes) }
    ensures changes { IfOk result (λ plan. AllByRecursion IsChange plan.changes) }
    ensures notes { IfOk result (λ plan. plan.notes ≡ []) }
    ensures steps { steps.new ≤ steps.old + 1 + length (items_of (G.rows graph.now)) }
{
    let mut changes = Vec::new(alloc);
    let mut last = None;
    while let Some(item) = graph.item_after(last, steps) {
        add_retracted(alloc, graph, who, item, &mut changes)?;
        last = Some(item);
    }
    Ok(Plan {
        changes: Many(changes),
        notes: Many(Vec::new(alloc)),
    })
}

// Appends what goes from an item, where something does.
fn add_retracted<V: View>(
    alloc: Global,
    view: &V,
    who: &Who,
    item: &Item,
    changes: &mut Vec<ItemChange>,
) -> Result<(), NoMemory>
    ensures { OnOk result (changes.new.items ≡ changes.old.items ++ changes_to (V.rows view.now)
        ((item.now, retract_on who.now (stored_on item.now (V.rows view.now))) ∷ [])) }
{
    let removed = rows_of(alloc, view.stored_at(item), who)?;
    let added = Vec::new(alloc);
    if !moves_something(&removed, &added) {
        return Ok(());
    }
    changes.push(ItemChange {
        item: item.copy(alloc)?,
        removed: Many(removed),
        added: Many(added),
    })?;
    Ok(())
}

// The rows that are of these.
fn rows_of(alloc: Global, rows: &[Row], who: &Who) -> Result<Vec<Row>, NoMemory>
    ensures { IfOk result (λ list. list.items ≡ filter (is_of who.now) rows.now) }
{
    let mut list = Vec::new(alloc);
    for row in rows {
        if is_of(who, row.stored_element()) {
            list.push(row.share()?)?;
        }
    }
    Ok(list)
}

fn is_of(who: &Who, stored: &Stored) -> bool
    ensures { result ≡ is_of who.now stored.now }
{
    match who {
        Who::Sessions(serials) => ends_with(serials.as_slice(), stored.life),
        Who::Publisher(name) => stored.publisher == *name,
    }
}

// Whether it ends with one of these sessions.
fn ends_with(serials: &[u64], life: Life) -> bool
    ensures { result ≡ ends_with serials.now life }
{
    match life {
        Life::Session(own) => serials.contains(&own),
        Life::Forever => false,
    }
}
