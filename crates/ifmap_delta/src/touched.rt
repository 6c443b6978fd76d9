//! The items on which a change may tell something.
ghost use Rattle.std.specs.Prelude.{◌≡◌, ◌≤◌, ◌<◌, ◌+◌, [], ◌∷◌, ◌++◌, ◌||◌, Some, OnOk, IfOk, length, slice_get, sum_by, nat_eq};
ghost use Rattle.std.specs.List.{AllByRecursion, IsDistinct, cons_option};
ghost use Rattle.ifmap_delta.specs.Changes.{ShowsAfter};
ghost use Rattle.ifmap_delta.specs.Located.{AreLocated, IsLocatedTwice};
ghost use Rattle.ifmap_delta.specs.SeenViews.{view_seen};
ghost use Rattle.ifmap_delta.specs.Shown.{HasSideMarks, SeesView, patched_mark, region_mark};
ghost use Rattle.ifmap_delta.specs.Touched.{AreTouched, brought_items, link_item, linked_items, looked_along, moved_items, planned_items};
ghost use Rattle.ifmap_fresh.specs.Collected.{numbers_of};
ghost use Rattle.ifmap_fresh.specs.Fresh.{is_looked_at};
ghost use Rattle.ifmap_region.specs.Marks.{mark_of, mark_over};
ghost use Rattle.ifmap_ident.specs.Items.{IsCanonItem};

use crate::locating::LocatedChange;
use crate::marks::{Marks, Patched, mark_after};
use crate::sides::Side;
use ifmap_elem::Copied;
use ifmap_fresh::laws::{levels_are_walks, numbers_keep_walks};
use ifmap_fresh::{LinksOf, add_alone, pair_at};
use ifmap_ident::Item;
use ifmap_ident::laws::bytes_tell_identifiers_apart;
use ifmap_plans::ItemChange;
use ifmap_region::{LinkSource, Patch, Region};
use ifmap_steps::Steps;
use ifmap_view::View;
use std::alloc::{AllocError as NoMemory, Global};
use std::sync::ledger::Ledger;

// Appends the item of the link of a number at a place, where it matches.
fn add_along<V: View, L: Ledger>(
    alloc: Global,
    links: &LinksOf<'_, V>,
    number: u64,
    i: u64,
    items: &mut Vec<Item>,
    steps: &mut Steps<L>,
) -> Result<(), NoMemory>
    requires { i < length (V.links links.now.view.now number) }
    ensures items { let seen = view_seen V.rows V.id_at V.links links.now.view.now in
        OnOk result (items.new.items ≡ items.old.items ++ cons_option (link_item seen
        links.now.search.now number (slice_get (V.links links.now.view.now number) i)) []) }
    ensures step { steps.new ≡ steps.old + 1 }
{
    if let Some(other) = links.at(number, i, steps) {
        let view = links.view;
        if let Some(item) = pair_at(alloc, view.identifier(number), view.identifier(other))? {
            items.push(item)?;
        }
    }
    Ok(())
}

// Appends the items of the matching links of a number.
fn add_linked<V: View, L: Ledger>(
    alloc: Global,
    links: &LinksOf<'_, V>,
    number: u64,
    items: &mut Vec<Item>,
    steps: &mut Steps<L>,
) -> Result<(), NoMemory>
    ensures items { let seen = view_seen V.rows V.id_at V.links links.now.view.now in
        OnOk result (items.new.items ≡ items.old.items ++ linked_items seen links.now.search.now
        number) }
    ensures steps { steps.new ≤ steps.old + length (V.links links.now.view.now number) }
{
    for i in 0..links.count(number) {
        add_along(alloc, links, number, i, items, steps)?;
    }
    Ok(())
}

// Appends the item of a change, where the search looks at it before or afterwards.
fn add_changed<G: View, D: View, M: Marks, N: Marks>(
    alloc: Global,
    before: &Side<'_, G, M>,
    after: &Side<'_, D, N>,
    change: &ItemChange,
    located: &LocatedChange<'_>,
    items: &mut Vec<Item>,
) -> Result<(), NoMemory>
    requires graph { SeesView G.rows G.id_at G.links before.now }
    requires draft { SeesView D.rows D.id_at D.links after.now }
    requires before { HasSideMarks G.rows G.id_at G.links M.mark before.now }
    requires after { HasSideMarks D.rows D.id_at D.links N.mark after.now }
    requires canon { IsCanonItem change.now.item }
    requires located { IsLocatedTwice (view_seen G.rows G.id_at G.links before.now.view.now)
        (view_seen D.rows D.id_at D.links after.now.view.now) change.now.item located.now }
    ensures { OnOk result (items.new.items ≡ items.old.items ++ planned_items
        (λ x. is_looked_at (G.rows before.now.view.now) before.now.search.now x
        || is_looked_at (D.rows after.now.view.now) after.now.search.now x) (change.now ∷ [])) }
{
    let item = &change.item;
    if before.looks_at(item, &located.before) || after.looks_at(item, &located.after) {
        items.push(item.copy(alloc)?)?;
    }
    Ok(())
}

// Appends the items of changes at which the search looks before or afterwards.
fn add_planned<G: View, D: View, M: Marks, N: Marks>(
    alloc: Global,
    before: &Side<'_, G, M>,
    after: &Side<'_, D, N>,
    changes: &[ItemChange],
    located: &[LocatedChange<'_>],
    items: &mut Vec<Item>,
) -> Result<(), NoMemory>
    requires graph { SeesView G.rows G.id_at G.links before.now }
    requires draft { SeesView D.rows D.id_at D.links after.now }
    requires before { HasSideMarks G.rows G.id_at G.links M.mark before.now }
    requires after { HasSideMarks D.rows D.id_at D.links N.mark after.now }
    requires canon { AllByRecursion (λ c. IsCanonItem c.item) changes.now }
    requires located { AreLocated (view_seen G.rows G.id_at G.links before.now.view.now)
        (view_seen D.rows D.id_at D.links after.now.view.now) changes.now located.now }
    requires long { length located.now ≡ length changes.now }
    ensures { OnOk result (items.new.items ≡ items.old.items ++ planned_items
        (λ x. is_looked_at (G.rows before.now.view.now) before.now.search.now x
        || is_looked_at (D.rows after.now.view.now) after.now.search.now x) changes.now) }
{
    for i in 0..changes.len() {
        add_changed(alloc, before, after, &changes[i], &located[i], items)?;
    }
    Ok(())
}

// Appends the items that a number of a patch brings: its own, where its mark comes or goes, and those of
// its links, where walks go on from it before or afterwards alone.
fn add_brought<D: View, L: Ledger>(
    alloc: Global,
    side: &Side<'_, D, Region>,
    patch: &Patch,
    number: u64,
    items: &mut Vec<Item>,
    steps: &mut Steps<L>,
) -> Result<(), NoMemory>
    ensures items { let seen = view_seen D.rows D.id_at D.links side.now.view.now in
        let mark = mark_of side.now.marks.now.marks.entries in
        OnOk result (items.new.items ≡ items.old.items ++ brought_items seen side.now.search.now
        number (mark number) (mark_over patch.now mark number)) }
    ensures steps { let seen = view_seen D.rows D.id_at D.links side.now.view.now in
        let mark = mark_of side.now.marks.now.marks.entries in
        steps.new ≤ steps.old + looked_along seen side.now.search.now number (mark number)
        (mark_over patch.now mark number) }
{
    let was = side.marks.mark(number);
    let now = mark_after(side.marks, patch, number);
    if was.is_some() != now.is_some() {
        add_alone(alloc, side.view.identifier(number), items)?;
    }
    if side.goes_on(number, was) != side.goes_on(number, now) {
        add_linked(alloc, &side.links(), number, items, steps)?;
    }
    Ok(())
}

// Appends the items that the numbers of a patch bring.
fn add_moved<D: View, L: Ledger>(
    alloc: Global,
    side: &Side<'_, D, Region>,
    patch: &Patch,
    items: &mut Vec<Item>,
    steps: &mut Steps<L>,
) -> Result<(), NoMemory>
    ensures items { let seen = view_seen D.rows D.id_at D.links side.now.view.now in
        let mark = mark_of side.now.marks.now.marks.entries in
        OnOk result (items.new.items ≡ items.old.items ++ moved_items seen side.now.search.now mark
        (mark_over patch.now mark) (numbers_of patch.now)) }
    ensures steps { let seen = view_seen D.rows D.id_at D.links side.now.view.now in
        let mark = mark_of side.now.marks.now.marks.entries in
        steps.new ≤ steps.old + sum_by (λ v. looked_along seen side.now.search.now v (mark v)
        (mark_over patch.now mark v)) (numbers_of patch.now) }
    ensures apart { IsDistinct nat_eq (numbers_of patch.now) }
{
    for i in 0..patch.len() {
        add_brought(alloc, side, patch, number_at(patch, i), items, steps)?;
    }
    Ok(())
}

// The number at a place of a patch.
fn number_at(patch: &Patch, i: usize) -> u64
    requires { i < length patch.now }
    ensures { slice_get (numbers_of patch.now) i ≡ Some result }
{
    match patch.at(i) {
        Some(change) => change.number,
        None => unreachable!(),
    }
}

// The items on which a change may tell something, in order, each once.
pub(crate) fn touched_items<G: View, D: View, L: Ledger>(
    alloc: Global,
    before: &Side<'_, G, Region>,
    after: &Side<'_, D, Patched<'_>>,
    changes: &[ItemChange],
    located: &[LocatedChange<'_>],
    steps: &mut Steps<L>,
) -> Result<Vec<Item>, NoMemory>
    requires search { before.now.search.now ≡ after.now.search.now }
    requires region { before.now.marks.now ≡ after.now.marks.now.region.now }
    requires before { HasSideMarks G.rows G.id_at G.links region_mark before.now }
    requires after { HasSideMarks D.rows D.id_at D.links patched_mark after.now }
    requires graph { SeesView G.rows G.id_at G.links before.now }
    requires draft { SeesView D.rows D.id_at D.links after.now }
    requires change { ShowsAfter (view_seen G.rows G.id_at G.links before.now.view.now)
        (view_seen D.rows D.id_at D.links after.now.view.now) changes.now }
    requires located { AreLocated (view_seen G.rows G.id_at G.links before.now.view.now)
        (view_seen D.rows D.id_at D.links after.now.view.now) changes.now located.now }
    ensures touched { IfOk result (λ items. AreTouched
        (view_seen G.rows G.id_at G.links before.now.view.now)
        (view_seen D.rows D.id_at D.links after.now.view.now) after.now.search.now items.items) }
    ensures steps { let seen = view_seen D.rows D.id_at D.links after.now.view.now in
        steps.new ≤ steps.old + sum_by (λ v. looked_along seen after.now.search.now v
        (mark_of after.now.marks.now.region.now.marks.entries v)
        (patched_mark after.now.marks.now v))
        (numbers_of after.now.marks.now.patch.now) }
    ensures apart { IsDistinct nat_eq (numbers_of after.now.marks.now.patch.now) }
{
    bytes_tell_identifiers_apart();
    levels_are_walks();
    numbers_keep_walks();
    // each number stands once in a patch
    let _ = after.marks.patch.len();
    let mut items = Vec::new(alloc);
    add_planned(alloc, before, after, changes, located, &mut items)?;
    let side = Side {
        view: after.view,
        search: after.search,
        marks: after.marks.region,
    };
    add_moved(alloc, &side, after.marks.patch, &mut items, steps)?;
    items.sort_unstable();
    items.dedup();
    Ok(items)
}
