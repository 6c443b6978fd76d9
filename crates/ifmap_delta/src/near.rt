//! Which items of a change are near what the walks of a subscription reach.
ghost use Rattle.std.specs.Prelude.{◌≡◌};
ghost use Rattle.std.specs.List.{list_any};
ghost use Rattle.ifmap_delta.specs.Flipped.{is_marked, is_near};
ghost use Rattle.ifmap_region.specs.Marks.{mark_of};

use crate::locating::LocatedChange;
use ifmap_region::Region;

// Whether a number is there and has a mark.
fn is_marked(region: &Region, number: Option<u64>) -> bool
    ensures { result ≡ is_marked (mark_of region.now.marks.entries) number }
{
    match number {
        Some(number) => region.mark(number).is_some(),
        None => false,
    }
}

// Whether an end of a change's item has a mark. Each identifier of the graph has its number in the
// draft too, so the numbers there tell it.
pub(crate) fn is_near(region: &Region, located: &LocatedChange<'_>) -> bool
    ensures { result ≡ is_near (mark_of region.now.marks.entries) located.now }
{
    is_marked(region, located.after.first) || is_marked(region, located.after.second)
}

// Whether an item of some changes has an end with a mark. The look ends at the first.
pub(crate) fn is_any_near(region: &Region, located: &[LocatedChange<'_>]) -> bool
    ensures { result ≡ list_any (is_near (mark_of region.now.marks.entries)) located.now }
{
    located.iter().any(|change| is_near(region, change))
}
