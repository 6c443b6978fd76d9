//! The search.
ghost use Rattle.std.specs.Prelude.{◌≡◌, ◌+◌, ◌++◌, Some, true, IfOk, IfSome, OnOk, length};
ghost use Rattle.ifmap_ident.specs.declared.items.Item.{Item};
ghost use Rattle.ifmap_ident.specs.Canon.{IsIdentifier};
ghost use Rattle.ifmap_ident.specs.Items.{IsCanonItem, item_size};
ghost use Rattle.ifmap_lemmas.specs.Having.{Has};
ghost use Rattle.ifmap_region.specs.Bounds.{IsWithin};
ghost use Rattle.ifmap_search.specs.Sizes.{entries_size};
ghost use Rattle.ifmap_view.specs.Attachments.{IsGraph};
ghost use Rattle.ifmap_view.specs.Views.{IsView};
ghost use Rattle.ifmap_fresh.specs.Collected.{AreLookedAt};
ghost use Rattle.ifmap_fresh.specs.Fresh.{IsSearchAnswer, is_looked_at};
ghost use Rattle.ifmap_fresh.specs.Gathered.{entries_of, entries_on, row_size};
ghost use Rattle.ifmap_fresh.specs.Linking.{IsReachedAt};

use crate::collecting::Looking;
use crate::links::LinksOf;
use ifmap_elem::Many;
use ifmap_ident::laws::bytes_tell_identifiers_apart;
use ifmap_ident::{Item, SharedItem};
use ifmap_region::build;
use ifmap_search::{Entry, Filter, Found, Search, SearchError, meets_optional};
use ifmap_steps::Steps;
use ifmap_view::{Row, View};
use std::alloc::{AllocError as NoMemory, Global};
use std::sync::ledger::Ledger;

/// What a search finds in a view, and its size; `TooBig` exactly where that is greater than the search
/// allows, with the size. The other error is want of memory, also where the size passes 2^64 - 1.
///
/// It takes each link of what it reaches at most three times. Elements are shared and not copied, and
/// the size is known before any entry is made.
pub fn fresh<V: View, L: Ledger>(
    alloc: Global,
    view: &V,
    search: &Search,
    steps: &mut Steps<L>,
) -> Result<Found, SearchError>
    requires start { IsIdentifier search.now.start }
    ensures answer { IsSearchAnswer (V.rows view.now) search.now result }
    ensures steps { IsWithin (λ v. length (V.links view.now v))
        (IsReachedAt (V.rows view.now) (V.id_at view.now) search.now) 3 steps.old steps.new }
{
    bytes_tell_identifiers_apart();
    let items = match items_looked_at(alloc, view, search, steps) {
        Ok(items) => items,
        Err(NoMemory) => return Err(SearchError::NoMemory),
    };
    let Some(size) = size_on(view, &search.result_filter, &items) else {
        return Err(SearchError::NoMemory);
    };
    if size > search.max_size {
        return Err(SearchError::TooBig { size });
    }
    match entries_on(alloc, view, &search.result_filter, items) {
        Ok(entries) => Ok(Found { entries, size }),
        Err(NoMemory) => Err(SearchError::NoMemory),
    }
}

// The items that the search looks at, in order, each once.
fn items_looked_at<V: View, L: Ledger>(
    alloc: Global,
    view: &V,
    search: &Search,
    steps: &mut Steps<L>,
) -> Result<Vec<Item>, NoMemory>
    requires start { IsIdentifier search.now.start }
    ensures items { IfOk result (λ items. AreLookedAt (V.rows view.now) search.now items.items) }
    ensures graph { IsGraph (V.rows view.now) }
    ensures steps { IsWithin (λ v. length (V.links view.now v))
        (IsReachedAt (V.rows view.now) (V.id_at view.now) search.now) 2 steps.old steps.new }
{
    bytes_tell_identifiers_apart();
    let Some(start) = view.number(&search.start) else {
        return Ok(Vec::new(alloc));
    };
    let mut items = items_from(alloc, view, search, start, steps)?;
    items.sort_unstable();
    items.dedup();
    Ok(items)
}

// The items that the search looks at from a start that has a number, in no order; some may stand twice.
fn items_from<V: View, L: Ledger>(
    alloc: Global,
    view: &V,
    search: &Search,
    start: u64,
    steps: &mut Steps<L>,
) -> Result<Vec<Item>, NoMemory>
    requires whole { IsView (V.rows view.now) (V.id_at view.now) (V.links view.now) }
    requires start { V.id_at view.now start ≡ Some search.now.start }
    requires identifier { IsIdentifier search.now.start }
    ensures there { IfOk result (λ items. (x : Item) → Has items.items x
        → is_looked_at (V.rows view.now) search.now x ≡ true) }
    ensures back { IfOk result (λ items. (x : Item) → IsCanonItem x
        → is_looked_at (V.rows view.now) search.now x ≡ true → Has items.items x) }
    ensures canon { IfOk result (λ items. (x : Item) → Has items.items x → IsCanonItem x) }
    ensures steps { IsWithin (λ v. length (V.links view.now v))
        (IsReachedAt (V.rows view.now) (V.id_at view.now) search.now) 2 steps.old steps.new }
{
    bytes_tell_identifiers_apart();
    let links = LinksOf { view, search };
    let region = build(alloc, start, search.max_depth, &links, steps)?;
    let looking = Looking { links, region };
    looking.collect(alloc, steps)
}

// The size of what stands on some items and meets the filter; `None` where a `u64` cannot tell it.
fn size_on<V: View>(view: &V, filter: &Option<Filter>, items: &[Item]) -> Option<u64>
    ensures { IfSome result (λ size. size
        ≡ entries_size (entries_on filter.now (V.rows view.now) items.now)) }
{
    let mut size: u64 = 0;
    for item in items {
        size = size.checked_add(size_of(filter, item, view.stored_at(item))?)?;
    }
    Some(size)
}

// The size of what of these rows of an item meets the filter; `None` where a `u64` cannot tell it.
fn size_of(filter: &Option<Filter>, item: &Item, rows: &[Row]) -> Option<u64>
    ensures { IfSome result (λ size.
        size ≡ entries_size (entries_of filter.now item.now rows.now)) }
{
    let own = exact_size(item)?;
    let mut size: u64 = 0;
    for row in rows {
        size = size_with(size, own, filter, row)?;
    }
    Some(size)
}

// The size with one row more of an item of that size, where it meets the filter.
fn size_with(size: u64, own: u64, filter: &Option<Filter>, row: &Row) -> Option<u64>
    ensures { IfSome result (λ sum. sum ≡ size + row_size own filter.now row.now) }
{
    let element = &row.stored_element().element;
    if meets_optional(filter, element.element()) {
        add_both(size, own, element.size())
    } else {
        Some(size)
    }
}

// The sum of three numbers, where a `u64` can tell it.
fn add_both(size: u64, own: u64, more: u64) -> Option<u64>
    ensures { IfSome result (λ sum. sum ≡ size + (own + more)) }
{
    let sum = size.checked_add(own)?;
    sum.checked_add(more)
}

// The size of an item, where a `u64` can tell it.
fn exact_size(item: &Item) -> Option<u64>
    ensures { IfSome result (λ size. size ≡ item_size item.now) }
{
    let size = item.size();
    if size < u64::MAX { Some(size) } else { None }
}

// What stands on some items and meets the filter.
fn entries_on<V: View>(
    alloc: Global,
    view: &V,
    filter: &Option<Filter>,
    items: Vec<Item>,
) -> Result<Many<Entry>, NoMemory>
    ensures { IfOk result (λ entries. entries
        ≡ entries_on filter.now (V.rows view.now) items.items) }
{
    let mut entries = Vec::new(alloc);
    for item in items {
        let rows = view.stored_at(&item);
        add_entries(alloc, item, rows, filter, &mut entries)?;
    }
    Ok(Many(entries))
}

// Appends what of these rows of an item meets the filter.
fn add_entries(
    alloc: Global,
    item: Item,
    rows: &[Row],
    filter: &Option<Filter>,
    entries: &mut Vec<Entry>,
) -> Result<(), NoMemory>
    ensures { OnOk result (entries.new.items
        ≡ entries.old.items ++ entries_of filter.now item rows.now) }
{
    let item = SharedItem::new(alloc, item)?;
    for row in rows {
        let element = &row.stored_element().element;
        if meets_optional(filter, element.element()) {
            entries.push(Entry {
                item: item.share()?,
                element: element.share()?,
            })?;
        }
    }
    Ok(())
}
