//! What a search finds over a view, without counting its steps.
ghost use Rattle.std.specs.Prelude.{◌≡◌, ◌<◌};
ghost use Rattle.ifmap_ident.specs.Canon.{IsIdentifier};

use ifmap_fresh::fresh;
use ifmap_search::{Found, Search, SearchError};
use ifmap_steps::Steps;
use ifmap_view::View;
use std::alloc::Global;
use std::marker::Brand;
use std::sync::ledger::{Blank, Ledger};

fn find_with<V: View, L: Ledger>(
    alloc: Global,
    view: &V,
    search: &Search,
    blank: Blank,
) -> Result<Found, SearchError>
    requires start { IsIdentifier search.now.start }
    requires name { blank.name ≡ L.name }
    requires parts { blank.parts ≡ L.parts }
    requires some { 0 < blank.parts }
{
    let mut steps: Steps<L> = Steps::from_blank(blank);
    fresh(alloc, view, search, &mut steps)
}

/// What the search finds.
pub fn find<V: View>(alloc: Global, view: &V, search: &Search) -> Result<Found, SearchError>
    requires { IsIdentifier search.now.start }
{
    find_with::<V, Brand>(alloc, view, search, Blank::new(1))
}
