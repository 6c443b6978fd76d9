//! The links of a change that match in just one of two views.
ghost use Rattle.std.specs.Prelude.{◌≡◌, ◌++◌, [], true, Some, IfOk, OnOk, IfSome, length};
ghost use Rattle.std.specs.List.{cons_option};
ghost use Rattle.ifmap_delta.specs.Flipped.{AreFlipsOf, IsFlipAt, is_one_marked};
ghost use Rattle.ifmap_delta.specs.Located.{AreLocated, IsLocatedTwice};
ghost use Rattle.ifmap_delta.specs.SeenViews.{ViewSeen};
ghost use Rattle.ifmap_region.specs.declared.flips.Flip.{Flip};
ghost use Rattle.ifmap_region.specs.Marks.{mark_of};

use crate::locating::LocatedChange;
use crate::near::is_near;
use ifmap_fresh::one_meets;
use ifmap_ident::Item;
use ifmap_plans::ItemChange;
use ifmap_region::{Flip, Region};
use ifmap_search::Search;
use std::alloc::{AllocError as NoMemory, Global};

// The flip of an item, where its link matches in one of the two views alone and an end has a mark. The
// others are met by no walk before the change, and afterwards as the draft has them.
fn flip_of(
    search: &Search,
    region: &Region,
    item: &Item,
    located: &LocatedChange<'_>,
) -> Option<Flip>
    ensures some { (old new : ViewSeen) → IsLocatedTwice old new item.now located.now
        → IfSome result (IsFlipAt old new search.now item.now) }
    ensures each { (old new : ViewSeen) → IsLocatedTwice old new item.now located.now
        → (flip : Flip) → IsFlipAt old new search.now item.now flip
        → is_one_marked (mark_of region.now.marks.entries) (Some flip.a) (Some flip.b) ≡ true
        → result ≡ Some flip }
{
    if let Item::One(_) = item {
        return None;
    }
    if !is_near(region, located) {
        return None;
    }
    let was = one_meets(&search.match_links, located.before.rows);
    let now = one_meets(&search.match_links, located.after.rows);
    if was == now {
        return None;
    }
    let a = located.after.first?;
    let b = located.after.second?;
    Some(Flip { a, b, added: now })
}

// Appends a flip, where there is one.
fn offer(flips: &mut Vec<Flip>, flip: Option<Flip>) -> Result<(), NoMemory>
    ensures { OnOk result (flips.new.items ≡ flips.old.items ++ cons_option flip []) }
{
    if let Some(flip) = flip {
        flips.push(flip)?;
    }
    Ok(())
}

// The flips of the items that change of which an end has a mark.
pub(crate) fn flips_of(
    alloc: Global,
    search: &Search,
    region: &Region,
    changes: &[ItemChange],
    located: &[LocatedChange<'_>],
) -> Result<Vec<Flip>, NoMemory>
    requires { length located.now ≡ length changes.now }
    ensures { IfOk result (λ flips. (old new : ViewSeen)
        → AreLocated old new changes.now located.now
        → AreFlipsOf old new search.now (mark_of region.now.marks.entries) changes.now
        flips.items) }
{
    let mut flips = Vec::new(alloc);
    for i in 0..changes.len() {
        offer(
            &mut flips,
            flip_of(search, region, &changes[i].item, &located[i]),
        )?;
    }
    Ok(flips)
}
