//! What one side of a change shows and the other does not, as entries, and their sizes.
ghost use Rattle.std.specs.Prelude.{◌≡◌, ◌≢◌, false, ◌+◌, ◌∷◌, ◌++◌, [], ◌-◌, ◌<◌, ◌^◌, List, OnOk, IfOk, IfSome, option_copied};
ghost use Rattle.std.specs.List.{AllByRecursion};
ghost use Rattle.std.specs.List.Sorted.{IsStrictlySortedBy};
ghost use Rattle.ifmap_delta.specs.Shown.{AreSides, shown_on};
ghost use Rattle.ifmap_delta.specs.SeenViews.{view_seen};
ghost use Rattle.ifmap_delta.specs.Touched.{IsChanged, change_at, has_met, items_touched, surplus, surplus_on, rows_touched_by};
ghost use Rattle.ifmap_ident.specs.Items.{IsCanonItem, item_order};
ghost use Rattle.ifmap_ident.specs.declared.items.Item.{Item};
ghost use Rattle.ifmap_lemmas.specs.Having.{Has};
ghost use Rattle.ifmap_meta.specs.declared.stored.Stored.{Stored};
ghost use Rattle.ifmap_plans.specs.Lists.{next_on};
ghost use Rattle.ifmap_plans.specs.Plans.{IsAfter};
ghost use Rattle.ifmap_search.specs.Sizes.{entries_size, entry_size};
ghost use Rattle.ifmap_view.specs.Attachments.{stored_order};

use crate::marks::Patched;
use crate::pairing::{TouchedItem, pair_with_changes};
use crate::sides::Side;
use ifmap_filter::{Filter, meets_optional};
use ifmap_ident::{Item, SharedItem};
use ifmap_plans::ItemChange;
use ifmap_plans::lists::{put_row, row_order};
use ifmap_region::Region;
use ifmap_search::Entry;
use ifmap_view::{Row, View};
use std::alloc::{AllocError as NoMemory, Global};

// The entries that go from a result, and those that come into it.
#[derive(Drop)]
pub(crate) struct ToldEntries {
    pub(crate) deleted: Vec<Entry>,
    pub(crate) updated: Vec<Entry>,
}

// Whether one of some rows that rise has the canonical bytes of a row, and meets the filter: it is found
// by halving.
fn has_met(rows: &[Row], row: &Row, filter: &Option<Filter>) -> bool
    requires { IsStrictlySortedBy stored_order rows.now }
    ensures { result ≡ has_met filter.now rows.now row.now }
{
    match rows.binary_search_by(|other| row_order(other, row)) {
        Ok(place) => meets_optional(filter, rows[place].stored_element().element.element()),
        Err(_) => false,
    }
}

// Appends those of some rows of an item that the others have not and that meet the filter.
fn add_left_out(
    filter: &Option<Filter>,
    item: &SharedItem,
    these: &[Row],
    others: &[Row],
    entries: &mut Vec<Entry>,
) -> Result<(), NoMemory>
    requires { IsStrictlySortedBy stored_order others.now }
    ensures { OnOk result (entries.new.items ≡ entries.old.items ++ surplus filter.now item.now
        these.now others.now) }
{
    for row in these {
        let element = &row.stored_element().element;
        if meets_optional(filter, element.element()) && !has_met(others, row, filter) {
            entries.push(Entry {
                item: item.share()?,
                element: element.share()?,
            })?;
        }
    }
    Ok(())
}

// Puts the row of some that rise that has the canonical bytes of another among those that were found, if
// there is one: it is found by halving.
fn put_like(rows: &[Row], row: &Row, found: &mut Vec<Row>) -> Result<(), NoMemory>
    requires rising { IsStrictlySortedBy stored_order rows.now }
    requires found { IsStrictlySortedBy stored_order found.old.items }
    ensures rising { OnOk result (IsStrictlySortedBy stored_order found.new.items) }
    ensures found { OnOk result ((these : List Stored)
        → found.old.items ≡ rows_touched_by these rows.now
        → found.new.items ≡ rows_touched_by (these ++ row.now ∷ []) rows.now) }
{
    match rows.binary_search_by(|other| row_order(other, row)) {
        Ok(place) => {
            put_row(found, rows[place].share()?)?;
            Ok(())
        }
        Err(_) => Ok(()),
    }
}

// The same for each of some rows.
fn put_touched(rows: &[Row], these: &[Row], found: &mut Vec<Row>) -> Result<(), NoMemory>
    requires rising { IsStrictlySortedBy stored_order rows.now }
    requires found { IsStrictlySortedBy stored_order found.old.items }
    ensures rising { OnOk result (IsStrictlySortedBy stored_order found.new.items) }
    ensures found { OnOk result ((earlier : List Stored)
        → found.old.items ≡ rows_touched_by earlier rows.now
        → found.new.items ≡ rows_touched_by (earlier ++ these.now) rows.now) }
{
    for row in these {
        put_like(rows, row, found)?;
    }
    Ok(())
}

// Those of some rows of an item that a change of it can concern: whose canonical bytes something has that
// goes or comes.
fn rows_touched(alloc: Global, rows: &[Row], change: &ItemChange) -> Result<Vec<Row>, NoMemory>
    requires { IsStrictlySortedBy stored_order rows.now }
    ensures { IfOk result (λ found. found.items
        ≡ rows_touched_by (change.now.removed ++ change.now.added) rows.now) }
{
    let mut found = Vec::new(alloc);
    put_touched(rows, change.removed.as_slice(), &mut found)?;
    put_touched(rows, change.added.as_slice(), &mut found)?;
    Ok(found)
}

// What is shown of an item before a change and afterwards, and the filter that what is told of it meets.
#[derive(Drop)]
struct ItemShown<'a> {
    filter: &'a Option<Filter>,
    item: &'a SharedItem,
    before: &'a [Row],
    after: &'a [Row],
}

// Appends what goes and what comes on an item, where any of its rows may.
fn add_any(shown: &ItemShown<'_>, told: &mut ToldEntries) -> Result<(), NoMemory>
    requires before { IsStrictlySortedBy stored_order shown.now.before.now }
    requires after { IsStrictlySortedBy stored_order shown.now.after.now }
    ensures deleted { OnOk result (told.new.deleted.items ≡ told.old.deleted.items ++ surplus
        shown.now.filter.now shown.now.item.now shown.now.before.now shown.now.after.now) }
    ensures updated { OnOk result (told.new.updated.items ≡ told.old.updated.items ++ surplus
        shown.now.filter.now shown.now.item.now shown.now.after.now shown.now.before.now) }
{
    add_left_out(
        shown.filter,
        shown.item,
        shown.before,
        shown.after,
        &mut told.deleted,
    )?;
    add_left_out(
        shown.filter,
        shown.item,
        shown.after,
        shown.before,
        &mut told.updated,
    )
}

// The same where only what a change of the item names may.
fn add_named(
    alloc: Global,
    shown: &ItemShown<'_>,
    change: &ItemChange,
    told: &mut ToldEntries,
) -> Result<(), NoMemory>
    requires before { IsStrictlySortedBy stored_order shown.now.before.now }
    requires after { IsStrictlySortedBy stored_order shown.now.after.now }
    requires change { shown.now.after.now
        ≡ next_on change.now.removed change.now.added shown.now.before.now }
    ensures deleted { OnOk result (told.new.deleted.items ≡ told.old.deleted.items ++ surplus
        shown.now.filter.now shown.now.item.now shown.now.before.now shown.now.after.now) }
    ensures updated { OnOk result (told.new.updated.items ≡ told.old.updated.items ++ surplus
        shown.now.filter.now shown.now.item.now shown.now.after.now shown.now.before.now) }
{
    let going = rows_touched(alloc, shown.before, change)?;
    let coming = rows_touched(alloc, shown.after, change)?;
    add_left_out(
        shown.filter,
        shown.item,
        &going,
        shown.after,
        &mut told.deleted,
    )?;
    add_left_out(
        shown.filter,
        shown.item,
        &coming,
        shown.before,
        &mut told.updated,
    )?;
    Ok(())
}

// Whether nothing is shown on one side.
fn is_one_sided(before: &[Row], after: &[Row]) -> bool
    ensures before { result ≡ false → before.now ≢ [] }
    ensures after { result ≡ false → after.now ≢ [] }
{
    before.is_empty() || after.is_empty()
}

// The change at a place of a plan, where there is one.
fn change_at(changes: &[ItemChange], place: Option<usize>) -> Option<&ItemChange>
    ensures { option_copied result ≡ change_at changes.now place }
{
    match place {
        Some(place) => changes.get(place),
        None => None,
    }
}

// Appends what goes and what comes on an item. Where it is shown before and afterwards, only what its
// change names can; where it is shown on one side alone, all that is stored there may.
fn add_differences<G: View, D: View>(
    alloc: Global,
    before: &Side<'_, G, Region>,
    after: &Side<'_, D, Patched<'_>>,
    one: TouchedItem,
    changes: &[ItemChange],
    told: &mut ToldEntries,
) -> Result<(), NoMemory>
    requires sides { AreSides (view_seen G.rows G.id_at G.links before.now.view.now)
        (view_seen D.rows D.id_at D.links after.now.view.now) before.now after.now }
    requires canon { IsCanonItem one.item }
    requires change { IsChanged (G.rows before.now.view.now) (D.rows after.now.view.now)
        changes.now one }
    ensures deleted { OnOk result (told.new.deleted.items ≡ told.old.deleted.items ++ surplus
        after.now.search.now.result_filter one.item
        (shown_on (G.rows before.now.view.now) before.now.search.now one.item)
        (shown_on (D.rows after.now.view.now) after.now.search.now one.item)) }
    ensures updated { OnOk result (told.new.updated.items ≡ told.old.updated.items ++ surplus
        after.now.search.now.result_filter one.item
        (shown_on (D.rows after.now.view.now) after.now.search.now one.item)
        (shown_on (G.rows before.now.view.now) before.now.search.now one.item)) }
{
    let TouchedItem { item, place } = one;
    let was = before.rows_shown(&item);
    let now = after.rows_shown(&item);
    let item = SharedItem::new(alloc, item)?;
    let shown = ItemShown {
        filter: &after.search.result_filter,
        item: &item,
        before: was,
        after: now,
    };
    if is_one_sided(was, now) {
        return add_any(&shown, told);
    }
    if let Some(change) = change_at(changes, place) {
        return add_named(alloc, &shown, change, told);
    }
    Ok(())
}

// What goes and what comes on some items, one after the other.
fn differences_of<G: View, D: View>(
    alloc: Global,
    before: &Side<'_, G, Region>,
    after: &Side<'_, D, Patched<'_>>,
    touched: Vec<TouchedItem>,
    changes: &[ItemChange],
) -> Result<ToldEntries, NoMemory>
    requires sides { AreSides (view_seen G.rows G.id_at G.links before.now.view.now)
        (view_seen D.rows D.id_at D.links after.now.view.now) before.now after.now }
    requires canon { AllByRecursion (λ t. IsCanonItem t.item) touched.items }
    requires changes { AllByRecursion (IsChanged (G.rows before.now.view.now)
        (D.rows after.now.view.now) changes.now) touched.items }
    ensures deleted { IfOk result (λ told. told.deleted.items ≡ surplus_on
        after.now.search.now.result_filter
        (shown_on (G.rows before.now.view.now) before.now.search.now)
        (shown_on (D.rows after.now.view.now) after.now.search.now) (items_touched touched.items)) }
    ensures updated { IfOk result (λ told. told.updated.items ≡ surplus_on
        after.now.search.now.result_filter
        (shown_on (D.rows after.now.view.now) after.now.search.now)
        (shown_on (G.rows before.now.view.now) before.now.search.now)
        (items_touched touched.items)) }
{
    let mut told = ToldEntries {
        deleted: Vec::new(alloc),
        updated: Vec::new(alloc),
    };
    for one in touched {
        add_differences(alloc, before, after, one, changes, &mut told)?;
    }
    Ok(told)
}

// What goes and what comes on some items in order, of which the plan changes some.
pub(crate) fn differences_on<G: View, D: View>(
    alloc: Global,
    before: &Side<'_, G, Region>,
    after: &Side<'_, D, Patched<'_>>,
    items: Vec<Item>,
    changes: &[ItemChange],
) -> Result<ToldEntries, NoMemory>
    requires sides { AreSides (view_seen G.rows G.id_at G.links before.now.view.now)
        (view_seen D.rows D.id_at D.links after.now.view.now) before.now after.now }
    requires rising { IsStrictlySortedBy item_order items.items }
    requires canon { (x : Item) → Has items.items x → IsCanonItem x }
    requires change { IsAfter changes.now (G.rows before.now.view.now)
        (D.rows after.now.view.now) }
    ensures deleted { IfOk result (λ told. told.deleted.items ≡ surplus_on
        after.now.search.now.result_filter
        (shown_on (G.rows before.now.view.now) before.now.search.now)
        (shown_on (D.rows after.now.view.now) after.now.search.now) items.items) }
    ensures updated { IfOk result (λ told. told.updated.items ≡ surplus_on
        after.now.search.now.result_filter
        (shown_on (D.rows after.now.view.now) after.now.search.now)
        (shown_on (G.rows before.now.view.now) before.now.search.now) items.items) }
{
    let touched = pair_with_changes(alloc, items, changes)?;
    differences_of(alloc, before, after, touched, changes)
}

// A size where a `u64` can tell it, which a size of this many bytes may not be.
fn exact_size(size: u64) -> Option<u64>
    ensures { IfSome result (λ n. (n ≡ size) × (n < 2 ^ 64 - 1)) }
{
    if size < u64::MAX { Some(size) } else { None }
}

// The size of an entry, where a `u64` can tell it.
#[tactic(auto, unfolding(ifmap_search::specs::Sizes::entry_size))]
fn entry_size(entry: &Entry) -> Option<u64>
    ensures { IfSome result (λ size. size ≡ entry_size entry.now) }
{
    let item = exact_size(entry.item.size())?;
    item.checked_add(entry.element.size())
}

// The size of some entries, where a `u64` can tell it.
pub(crate) fn size_of(entries: &[Entry]) -> Option<u64>
    ensures { IfSome result (λ size. size ≡ entries_size entries.now) }
{
    let mut size: u64 = 0;
    for entry in entries {
        size = size.checked_add(entry_size(entry)?)?;
    }
    Some(size)
}

// The size of a result after some entries went and others came, where a `u64` can tell it.
pub(crate) fn size_after(size: u64, told: &ToldEntries) -> Option<u64>
    ensures { IfSome result (λ after. after + entries_size told.now.deleted.items
        ≡ size + entries_size told.now.updated.items) }
{
    let left = size.checked_sub(size_of(&told.deleted)?)?;
    left.checked_add(size_of(&told.updated)?)
}
