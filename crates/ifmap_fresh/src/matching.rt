//! Whether what is stored meets a filter that may be absent.
ghost use Rattle.std.specs.Prelude.{◌≡◌};
ghost use Rattle.ifmap_fresh.specs.Matching.{one_meets};

use ifmap_search::{Filter, meets_optional};
use ifmap_view::Row;

/// Whether some of what is stored meets the filter. It takes no memory.
pub fn one_meets(filter: &Option<Filter>, rows: &[Row]) -> bool
    ensures { result ≡ one_meets filter.now rows.now }
{
    rows.iter().any(|row| meets_optional(filter, row.stored_element().element.element()))
}
