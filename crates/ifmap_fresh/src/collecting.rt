//! The items that a search looks at.
ghost use Rattle.std.specs.Prelude.{◌≡◌, ◌<◌, ◌≤◌, ◌+◌, ◌++◌, Some, OnOk, IfOk, length, nat_eq, slice_get, sum_by};
ghost use Rattle.std.specs.List.{IsDistinct, filter_map};
ghost use Rattle.ifmap_region.specs.Marks.{mark_of};
ghost use Rattle.ifmap_fresh.specs.Collected.{is_passed, item_along, item_at, item_list, item_to, items_of_number, items_of_numbers, numbers_of};

use crate::items::{add_alone, pair_at};
use crate::links::LinksOf;
use ifmap_ident::Item;
use ifmap_region::{LinkSource, Region};
use ifmap_steps::Steps;
use ifmap_view::View;
use std::alloc::{AllocError as NoMemory, Global};
use std::sync::ledger::Ledger;

// A search over a view, with what its walks reach.
#[derive(Drop)]
pub(crate) struct Looking<'a, V> {
    pub(crate) links: LinksOf<'a, V>,
    pub(crate) region: Region,
}

impl<'a, V: View> Looking<'a, V> {
    // Whether walks go on from the number.
    fn is_passed(&self, number: u64) -> bool
        ensures { result ≡ is_passed
            (V.rows self.now.links.view.now) (V.id_at self.now.links.view.now)
            (V.links self.now.links.view.now) self.now.links.search.now
            (mark_of self.now.region.marks.entries) number }
    {
        match self.region.mark(number) {
            Some(mark) => { mark < self.links.search.max_depth && !self.links.is_terminal(number) }
            None => false,
        }
    }

    // The item of the link of two numbers; none where the lesser one brings it.
    fn item_to(&self, alloc: Global, number: u64, other: u64) -> Result<Option<Item>, NoMemory>
        ensures { IfOk result (λ item. item ≡ item_to (V.rows self.now.links.view.now)
            (V.id_at self.now.links.view.now) (V.links self.now.links.view.now)
            self.now.links.search.now (mark_of self.now.region.marks.entries) number other) }
    {
        if other < number && self.is_passed(other) {
            return Ok(None);
        }
        let view = self.links.view;
        pair_at(alloc, view.identifier(number), view.identifier(other))
    }

    // Appends the items of the matching links of a number.
    fn add_linked<L: Ledger>(
        &self,
        alloc: Global,
        number: u64,
        items: &mut Vec<Item>,
        steps: &mut Steps<L>,
    ) -> Result<(), NoMemory>
        ensures items { OnOk result (items.new.items ≡ items.old.items ++ filter_map
            (item_along (V.rows self.now.links.view.now) (V.id_at self.now.links.view.now)
            (V.links self.now.links.view.now) self.now.links.search.now
            (mark_of self.now.region.marks.entries) number)
            (V.links self.now.links.view.now number)) }
        ensures steps { steps.new ≤ steps.old + length (V.links self.now.links.view.now number) }
    {
        for i in 0..self.links.count(number) {
            self.add_along(alloc, number, i, items, steps)?;
        }
        Ok(())
    }

    // Appends the item that the link of a number at a place brings.
    fn add_along<L: Ledger>(
        &self,
        alloc: Global,
        number: u64,
        i: u64,
        items: &mut Vec<Item>,
        steps: &mut Steps<L>,
    ) -> Result<(), NoMemory>
        requires { i < length (V.links self.now.links.view.now number) }
        ensures items { OnOk result (items.new.items ≡ items.old.items ++ item_list
            (item_at (V.rows self.now.links.view.now) (V.id_at self.now.links.view.now)
            (V.links self.now.links.view.now) self.now.links.search.now
            (mark_of self.now.region.marks.entries) number
            (slice_get (V.links self.now.links.view.now number) i))) }
        ensures step { steps.new ≡ steps.old + 1 }
    {
        if let Some(other) = self.links.at(number, i, steps) {
            if let Some(item) = self.item_to(alloc, number, other)? {
                items.push(item)?;
            }
        }
        Ok(())
    }

    // Appends the items that a number brings.
    fn add_brought<L: Ledger>(
        &self,
        alloc: Global,
        number: u64,
        items: &mut Vec<Item>,
        steps: &mut Steps<L>,
    ) -> Result<(), NoMemory>
        ensures items { OnOk result (items.new.items ≡ items.old.items ++ items_of_number
            (V.rows self.now.links.view.now) (V.id_at self.now.links.view.now)
            (V.links self.now.links.view.now) self.now.links.search.now
            (mark_of self.now.region.marks.entries) number) }
        ensures steps { steps.new ≤ steps.old + length (V.links self.now.links.view.now number) }
    {
        add_alone(alloc, self.links.view.identifier(number), items)?;
        if self.is_passed(number) {
            self.add_linked(alloc, number, items, steps)?;
        }
        Ok(())
    }

    // The number of the mark at a place.
    fn number_at(&self, i: usize) -> u64
        requires { i < length self.now.region.marks.entries }
        ensures { slice_get (numbers_of self.now.region.marks.entries) i ≡ Some result }
    {
        match self.region.marks.get_index(i) {
            Some((number, _)) => *number,
            None => unreachable!(),
        }
    }

    // The items that the search looks at, in no order; some may stand twice.
    pub(crate) fn collect<L: Ledger>(
        &self,
        alloc: Global,
        steps: &mut Steps<L>,
    ) -> Result<Vec<Item>, NoMemory>
        ensures items { IfOk result (λ items. items.items ≡ items_of_numbers
            (V.rows self.now.links.view.now) (V.id_at self.now.links.view.now)
            (V.links self.now.links.view.now) self.now.links.search.now
            (mark_of self.now.region.marks.entries) (numbers_of self.now.region.marks.entries)) }
        ensures steps { steps.new ≤ steps.old
            + sum_by (λ v. length (V.links self.now.links.view.now v))
            (numbers_of self.now.region.marks.entries) }
        ensures apart { IsDistinct nat_eq (numbers_of self.now.region.marks.entries) }
    {
        let mut items = Vec::new(alloc);
        for i in 0..self.region.marks.len() {
            self.add_brought(alloc, self.number_at(i), &mut items, steps)?;
        }
        Ok(items)
    }
}
