//! Where the items of a plan stand in the graph and in the draft.
ghost use Rattle.std.specs.Prelude.{◌≡◌, IfOk};
ghost use Rattle.ifmap_delta.specs.Located.{AreLocated, AreNotesLocated, IsLocated, IsLocatedPlan, IsLocatedTwice};
ghost use Rattle.ifmap_delta.specs.SeenViews.{view_seen};
ghost use Rattle.ifmap_view.specs.Views.{IsView};

use ifmap_ident::Item;
use ifmap_plans::{ItemChange, Note, Plan};
use ifmap_view::{Row, View};
use std::alloc::{AllocError as NoMemory, Global};

/// An item in one view: the numbers of its identifiers, and what is stored on it.
#[derive(Clone, Copy)]
pub struct Located<'a> {
    /// The number of the identifier, or of a link's first, where that is live.
    pub first: Option<u64>,
    /// The number of a link's other identifier, where that is live.
    pub second: Option<u64>,
    /// What is stored on the item, in order.
    pub rows: &'a [Row],
}

/// The item of a change in the graph and in the draft.
#[derive(Clone, Copy)]
pub struct LocatedChange<'a> {
    /// The item in the graph.
    pub before: Located<'a>,
    /// The item in the draft.
    pub after: Located<'a>,
}

/// A plan with its items in the graph and in the draft. They are looked up once for a change, for all
/// subscriptions.
#[derive(Drop)]
pub struct LocatedPlan<'a> {
    /// The plan.
    pub plan: &'a Plan,
    /// The item of each of its changes, in order.
    pub changes: Vec<LocatedChange<'a>>,
    /// The item of each of its notes in the draft, in order.
    pub notes: Vec<Located<'a>>,
}

/// Looks up the items of a plan in the graph and in the draft. It looks along no link. The only error
/// is want of memory.
pub fn locate_plan<'a, G: View, D: View>(
    alloc: Global,
    graph: &'a G,
    draft: &'a D,
    plan: &'a Plan,
) -> Result<LocatedPlan<'a>, NoMemory>
    ensures plan { IfOk result (λ located. located.plan.now ≡ plan.now) }
    ensures located { IfOk result (IsLocatedPlan
        (view_seen G.rows G.id_at G.links graph.now) (view_seen D.rows D.id_at D.links draft.now)) }
{
    let changes = locate_changes(alloc, graph, draft, plan.changes.as_slice())?;
    let notes = locate_notes(alloc, draft, plan.notes.as_slice())?;
    Ok(LocatedPlan {
        plan,
        changes,
        notes,
    })
}

// The items of changes in the graph and in the draft, in the order of the changes.
fn locate_changes<'a, G: View, D: View>(
    alloc: Global,
    graph: &'a G,
    draft: &'a D,
    changes: &[ItemChange],
) -> Result<Vec<LocatedChange<'a>>, NoMemory>
    ensures { IfOk result (λ located. AreLocated
        (view_seen G.rows G.id_at G.links graph.now) (view_seen D.rows D.id_at D.links draft.now)
        changes.now located.items) }
{
    let mut located = Vec::new(alloc);
    for change in changes {
        located.push(locate_change(graph, draft, &change.item))?;
    }
    Ok(located)
}

// The items of notes in a view, in the order of the notes.
fn locate_notes<'a, V: View>(
    alloc: Global,
    view: &'a V,
    notes: &[Note],
) -> Result<Vec<Located<'a>>, NoMemory>
    ensures { IfOk result (λ located. AreNotesLocated (view_seen V.rows V.id_at V.links view.now)
        notes.now located.items) }
{
    let mut located = Vec::new(alloc);
    for note in notes {
        located.push(locate_item(view, note.item.item()))?;
    }
    Ok(located)
}

// An item in the graph and in the draft.
fn locate_change<'a, G: View, D: View>(graph: &'a G, draft: &'a D, item: &Item) -> LocatedChange<'a>
    ensures { IsLocatedTwice (view_seen G.rows G.id_at G.links graph.now)
        (view_seen D.rows D.id_at D.links draft.now) item.now result }
{
    LocatedChange {
        before: locate_item(graph, item),
        after: locate_item(draft, item),
    }
}

// An item in a view, and what holds of every view.
pub(crate) fn locate_item<'a, V: View>(view: &'a V, item: &Item) -> Located<'a>
    ensures located { IsLocated (view_seen V.rows V.id_at V.links view.now) item.now result }
    ensures whole { IsView (V.rows view.now) (V.id_at view.now) (V.links view.now) }
{
    let rows = view.stored_at(item);
    match item {
        Item::One(a) => Located {
            first: view.number(a),
            second: None,
            rows,
        },
        Item::Pair(a, b) => Located {
            first: view.number(a),
            second: view.number(b),
            rows,
        },
    }
}
