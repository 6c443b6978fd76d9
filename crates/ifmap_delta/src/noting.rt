//! What a subscription is told of notified elements.
ghost use Rattle.std.specs.Prelude.{◌≡◌, ◌&&◌, ◌++◌, ◌∷◌, [], IfOk, OnOk, length};
ghost use Rattle.std.specs.List.{AllByRecursion};
ghost use Rattle.ifmap_folds.specs.Notes.{is_told, told_notes};
ghost use Rattle.ifmap_delta.specs.Located.{AreNotesLocated, IsLocated};
ghost use Rattle.ifmap_delta.specs.SeenViews.{HasMarks, view_seen};
ghost use Rattle.ifmap_delta.specs.Shown.{HasSideMarks, SeesView, region_mark};
ghost use Rattle.ifmap_ident.specs.Items.{IsCanonItem};
ghost use Rattle.ifmap_view.specs.Views.{IsView};

use crate::locating::{Located, LocatedPlan};
use crate::sides::Side;
use crate::subscriptions::Subscription;
use ifmap_elem::Many;
use ifmap_filter::meets_optional;
use ifmap_plans::Note;
use ifmap_region::Region;
use ifmap_search::Entry;
use ifmap_view::View;
use std::alloc::{AllocError as NoMemory, Global};

/// The notified elements of a plan that a subscription is told, in the plan's order: those that meet
/// its result filter, on a reached identifier, or on a link of which an end is expanded and where the
/// link or the element itself meets its match links.
///
/// The subscription's marks are those of the draft, so it is called after the change was committed.
/// It looks along no link. The only error is want of memory.
pub fn notes<'a, D: View>(
    alloc: Global,
    subscription: &'a Subscription,
    draft: &'a D,
    located: &LocatedPlan<'_>,
) -> Result<Many<Entry>, NoMemory>
    requires view { IsView (D.rows draft.now) (D.id_at draft.now) (D.links draft.now) }
    requires marks { HasMarks (view_seen D.rows D.id_at D.links draft.now) subscription.now }
    requires canon { AllByRecursion (λ n. IsCanonItem n.item) located.now.plan.now.notes }
    requires located { AreNotesLocated (view_seen D.rows D.id_at D.links draft.now)
        located.now.plan.now.notes located.now.notes.items }
    ensures { IfOk result (λ told. told ≡ told_notes (D.rows draft.now) subscription.now.search
        located.now.plan.now.notes) }
{
    let after = Side {
        view: draft,
        search: &subscription.search,
        marks: &subscription.region,
    };
    let plan = located.plan;
    let told = told_entries(alloc, &after, plan.notes.as_slice(), &located.notes)?;
    Ok(Many(told))
}

// Those of some notes that are told, in their order.
fn told_entries<D: View>(
    alloc: Global,
    after: &Side<'_, D, Region>,
    notes: &[Note],
    located: &[Located<'_>],
) -> Result<Vec<Entry>, NoMemory>
    requires view { SeesView D.rows D.id_at D.links after.now }
    requires marks { HasSideMarks D.rows D.id_at D.links region_mark after.now }
    requires canon { AllByRecursion (λ n. IsCanonItem n.item) notes.now }
    requires located { AreNotesLocated (view_seen D.rows D.id_at D.links after.now.view.now)
        notes.now located.now }
    requires long { length located.now ≡ length notes.now }
    ensures { IfOk result (λ told. told.items ≡ told_notes (D.rows after.now.view.now)
        after.now.search.now notes.now) }
{
    let mut told = Vec::new(alloc);
    for i in 0..notes.len() {
        add_told(after, &notes[i], &located[i], &mut told)?;
    }
    Ok(told)
}

// Appends a note, where it is told.
fn add_told<D: View>(
    after: &Side<'_, D, Region>,
    note: &Note,
    located: &Located<'_>,
    told: &mut Vec<Entry>,
) -> Result<(), NoMemory>
    requires view { SeesView D.rows D.id_at D.links after.now }
    requires marks { HasSideMarks D.rows D.id_at D.links region_mark after.now }
    requires canon { IsCanonItem note.now.item }
    requires located { IsLocated (view_seen D.rows D.id_at D.links after.now.view.now)
        note.now.item located.now }
    ensures { OnOk result (told.new.items ≡ told.old.items ++ told_notes
        (D.rows after.now.view.now) after.now.search.now (note.now ∷ [])) }
{
    if is_told(after, note, located) {
        told.push(Entry {
            item: note.item.share()?,
            element: note.element.share()?,
        })?;
    }
    Ok(())
}

// Whether a note is told.
fn is_told<D: View>(after: &Side<'_, D, Region>, note: &Note, located: &Located<'_>) -> bool
    requires view { SeesView D.rows D.id_at D.links after.now }
    requires marks { HasSideMarks D.rows D.id_at D.links region_mark after.now }
    requires canon { IsCanonItem note.now.item }
    requires located { IsLocated (view_seen D.rows D.id_at D.links after.now.view.now)
        note.now.item located.now }
    ensures { result ≡ is_told (D.rows after.now.view.now) after.now.search.now note.now }
{
    after.counts_on(note.item.item(), located, note.element.element())
        && meets_optional(&after.search.result_filter, note.element.element())
}
