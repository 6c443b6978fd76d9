//! The links of a view that a search goes along, as a source of links for a region.
ghost use Rattle.std.specs.Prelude.{◌≡◌, length, slice_get};
ghost use Rattle.ifmap_fresh.specs.Linking.{end_where, is_terminal_at};

use crate::kinds::is_terminal;
use crate::matching::one_meets;
use ifmap_region::LinkSource;
use ifmap_search::Search;
use ifmap_steps::Steps;
use ifmap_view::View;
use std::sync::ledger::Ledger;

/// The links of a view on which something meets the search's `match_links`; no walk goes on from an
/// identifier of a terminal kind. Looking along a link is one step of the view.
#[derive(Drop)]
pub struct LinksOf<'a, V> {
    pub view: &'a V,
    pub search: &'a Search,
}

impl<'a, V: View> LinkSource for LinksOf<'a, V> {
    ghost seen = { λ l. record {
      count = λ v. length (V.links l.view.now v);
      link = λ v i. end_where (V.rows l.view.now) (V.id_at l.view.now)
          l.search.now.match_links v (slice_get (V.links l.view.now v) i);
      terminal = λ v. is_terminal_at l.search.now.terminal (V.id_at l.view.now v);
    } };

    fn count(&self, number: u64) -> u64 {
        self.view.link_count(number)
    }

    fn at<L: Ledger>(&self, number: u64, i: u64, steps: &mut Steps<L>) -> Option<u64> {
        let seen = self.view.link_at(number, i, steps);
        if one_meets(&self.search.match_links, self.view.link_stored(seen)) {
            Some(seen.other)
        } else {
            None
        }
    }

    fn is_terminal(&self, number: u64) -> bool {
        match self.view.identifier(number) {
            Some(id) => is_terminal(&self.search.terminal, id),
            None => false,
        }
    }
}
