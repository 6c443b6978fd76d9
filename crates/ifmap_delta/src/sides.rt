//! What a subscription shows of a view, by its marks.
ghost use Rattle.std.specs.Prelude.{◌≡◌};
ghost use Rattle.ifmap_folds.specs.Notes.{counts_on};
ghost use Rattle.ifmap_delta.specs.Located.{IsLocated, IsNumberOf};
ghost use Rattle.ifmap_delta.specs.SeenViews.{view_seen};
ghost use Rattle.ifmap_delta.specs.Shown.{HasSideMarks, SeesView, goes_on, shown_on};
ghost use Rattle.ifmap_fresh.specs.Fresh.{is_looked_at};
ghost use Rattle.ifmap_fresh.specs.Reached.{is_expanded, is_reached};
ghost use Rattle.ifmap_ident.specs.Canon.{IsIdentifier};
ghost use Rattle.ifmap_ident.specs.Items.{IsCanonItem};
ghost use Rattle.ifmap_ident.specs.declared.identifiers.Identifier.{Identifier};

use crate::locating::{Located, locate_item};
use crate::marks::Marks;
use ifmap_elem::Element;
use ifmap_filter::meets_optional;
use ifmap_fresh::laws::{levels_are_walks, numbers_keep_walks};
use ifmap_fresh::{LinksOf, one_meets};
use ifmap_ident::Item;
use ifmap_region::LinkSource;
use ifmap_search::Search;
use ifmap_view::{Row, View};

// A search over a view, with the marks of what its walks reach.
#[derive(Drop)]
pub(crate) struct Side<'a, V, M> {
    pub(crate) view: &'a V,
    pub(crate) search: &'a Search,
    pub(crate) marks: &'a M,
}

impl<'a, V: View, M: Marks> Side<'a, V, M> {
    // The links along which the search goes.
    pub(crate) fn links(&self) -> LinksOf<'a, V>
        ensures view { result.view.now ≡ self.now.view.now }
        ensures search { result.search.now ≡ self.now.search.now }
    {
        LinksOf {
            view: self.view,
            search: self.search,
        }
    }

    // Whether walks go on from a number with this mark.
    pub(crate) fn goes_on(&self, number: u64, mark: Option<u32>) -> bool
        ensures { result ≡ goes_on self.now.search.now (V.id_at self.now.view.now number) mark }
    {
        match mark {
            Some(mark) => {
                let links = self.links();
                mark < self.search.max_depth && !links.is_terminal(number)
            }
            None => false,
        }
    }

    // Whether a walk ends in the identifier of a number; none does where it has no number.
    fn is_reached(&self, number: Option<u64>) -> bool
        requires view { SeesView V.rows V.id_at V.links self.now }
        requires marks { HasSideMarks V.rows V.id_at V.links M.mark self.now }
        ensures { (a : Identifier) → IsIdentifier a
            → IsNumberOf (view_seen V.rows V.id_at V.links self.now.view.now) a number
            → result ≡ is_reached (V.rows self.now.view.now) self.now.search.now a }
    {
        levels_are_walks();
        numbers_keep_walks();
        match number {
            Some(number) => self.marks.mark_at(number).is_some(),
            None => false,
        }
    }

    // Whether walks go on from the identifier of a number; none do where it has no number.
    fn is_expanded(&self, number: Option<u64>) -> bool
        requires view { SeesView V.rows V.id_at V.links self.now }
        requires marks { HasSideMarks V.rows V.id_at V.links M.mark self.now }
        ensures { (a : Identifier) → IsIdentifier a
            → IsNumberOf (view_seen V.rows V.id_at V.links self.now.view.now) a number
            → result ≡ is_expanded (V.rows self.now.view.now) self.now.search.now a }
    {
        levels_are_walks();
        numbers_keep_walks();
        match number {
            Some(number) => self.goes_on(number, self.marks.mark_at(number)),
            None => false,
        }
    }

    // Whether the search looks at the item: a reached identifier, or a matching link of which an end is
    // expanded. Elements are looked at last.
    pub(crate) fn looks_at(&self, item: &Item, located: &Located<'_>) -> bool
        requires view { SeesView V.rows V.id_at V.links self.now }
        requires marks { HasSideMarks V.rows V.id_at V.links M.mark self.now }
        requires canon { IsCanonItem item.now }
        requires located { IsLocated (view_seen V.rows V.id_at V.links self.now.view.now) item.now
            located.now }
        ensures { result ≡ is_looked_at (V.rows self.now.view.now) self.now.search.now item.now }
    {
        match item {
            Item::One(_) => self.is_reached(located.first),
            Item::Pair(..) => {
                (self.is_expanded(located.first) || self.is_expanded(located.second))
                    && one_meets(&self.search.match_links, located.rows)
            }
        }
    }

    // Whether an element that is notified on the item counts: the identifier is reached, or an end of the
    // link is expanded, and the link or the element meets what links have to meet.
    pub(crate) fn counts_on(&self, item: &Item, located: &Located<'_>, element: &Element) -> bool
        requires view { SeesView V.rows V.id_at V.links self.now }
        requires marks { HasSideMarks V.rows V.id_at V.links M.mark self.now }
        requires canon { IsCanonItem item.now }
        requires located { IsLocated (view_seen V.rows V.id_at V.links self.now.view.now) item.now
            located.now }
        ensures { result ≡ counts_on (V.rows self.now.view.now) self.now.search.now item.now
            element.now }
    {
        match item {
            Item::One(_) => self.is_reached(located.first),
            Item::Pair(..) => {
                let filter = &self.search.match_links;
                (self.is_expanded(located.first) || self.is_expanded(located.second))
                    && (one_meets(filter, located.rows) || meets_optional(filter, element))
            }
        }
    }

    // What is stored on the item, where the search looks at it; nothing where it does not.
    pub(crate) fn rows_shown(&self, item: &Item) -> &[Row]
        requires marks { HasSideMarks V.rows V.id_at V.links M.mark self.now }
        requires canon { IsCanonItem item.now }
        ensures { result.now ≡ shown_on (V.rows self.now.view.now) self.now.search.now item.now }
    {
        let located = locate_item(self.view, item);
        if self.looks_at(item, &located) {
            located.rows
        } else {
            &located.rows[..0]
        }
    }
}
