//! How a subscription begins.
ghost use Rattle.std.specs.Prelude.{◌≡◌, Some, IfOk, length};
ghost use Rattle.ifmap_delta.specs.Changes.{IsSubscribed};
ghost use Rattle.ifmap_delta.specs.SeenViews.{AreMarks, view_seen};
ghost use Rattle.ifmap_fresh.specs.Linking.{IsReachedAt};
ghost use Rattle.ifmap_ident.specs.Canon.{IsIdentifier};
ghost use Rattle.ifmap_region.specs.Bounds.{IsWithin};
ghost use Rattle.ifmap_region.specs.Marks.{AllMarked, mark_of};

use crate::subscriptions::{Subscribed, Subscription};
use ifmap_fresh::laws::numbers_keep_walks;
use ifmap_fresh::{LinksOf, fresh};
use ifmap_region::{Region, build};
use ifmap_search::{Search, SearchError};
use ifmap_steps::Steps;
use ifmap_view::View;
use std::alloc::{AllocError as NoMemory, Global};
use std::sync::ledger::Ledger;

/// A subscription to what a search from the number `start` finds, with that result; `TooBig` exactly
/// where the size of the result is greater than the search allows. The only error is want of memory,
/// also where the size passes 2^64 - 1.
///
/// It takes each link of what it reaches at most four times.
pub fn subscribe<V: View, L: Ledger>(
    alloc: Global,
    view: &V,
    start: u64,
    search: Search,
    steps: &mut Steps<L>,
) -> Result<Subscribed, NoMemory>
    requires identifier { IsIdentifier search.start }
    requires start { V.id_at view.now start ≡ Some search.start }
    ensures answer { IfOk result (IsSubscribed (view_seen V.rows V.id_at V.links view.now) search
        start) }

    // Also at want of memory.
    ensures steps { IsWithin (λ v. length (V.links view.now v))
        (IsReachedAt (V.rows view.now) (V.id_at view.now) search) 4 steps.old steps.new }
{
    let found = match fresh(alloc, view, &search, steps) {
        Ok(found) => found,
        Err(SearchError::TooBig { size }) => return Ok(Subscribed::TooBig { size }),
        Err(SearchError::NoMemory) => return Err(NoMemory),
    };
    let region = region_of(alloc, view, start, &search, steps)?;
    let size = found.size;
    let subscription = Subscription {
        search,
        region,
        size,
    };
    Ok(Subscribed::Kept {
        subscription,
        found,
    })
}

// The region of a search from the number of its start.
fn region_of<V: View, L: Ledger>(
    alloc: Global,
    view: &V,
    start: u64,
    search: &Search,
    steps: &mut Steps<L>,
) -> Result<Region, NoMemory>
    requires identifier { IsIdentifier search.now.start }
    requires start { V.id_at view.now start ≡ Some search.now.start }
    ensures start { IfOk result (λ region. region.start ≡ start) }
    ensures marks { let seen = view_seen V.rows V.id_at V.links view.now in
        IfOk result (λ region. AreMarks seen search.now region.start region.max_depth
        (mark_of region.marks.entries)) }
    ensures rows { IfOk result (λ region. AllMarked region.marks.entries) }
    ensures steps { IsWithin (λ v. length (V.links view.now v))
        (IsReachedAt (V.rows view.now) (V.id_at view.now) search.now) 1 steps.old steps.new }
{
    numbers_keep_walks();
    // what holds of every view
    let _ = view.number(&search.start);
    let links = LinksOf { view, search };
    build(alloc, start, search.max_depth, &links, steps)
}
