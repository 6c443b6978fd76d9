//! The links of numbers as they are to be, once the drafts of shelves are set: those that stay, and
//! those that come. Each slot that comes to be full or empty is looked at once, for each number.
ghost use Rattle.std.specs.Prelude.{◌≡◌, ◌<◌, ◌++◌, ℕ, List, [], ◌∷◌, Some, None, IfOk, IsSome, OnOk, length};
ghost use Rattle.std.specs.List.{cons_option, filter_map};
ghost use Rattle.slab.specs.Slab.{get};
ghost use Rattle.ifmap_view.specs.declared.views.LinkSeen.{LinkSeen};
ghost use Rattle.ifmap_graph.specs.Joined.{joined_pair, two_of};
ghost use Rattle.ifmap_graph.specs.Linked.{far_of, seen_at};
ghost use Rattle.ifmap_graph.specs.Touched.{AreExactlyDrafted, ArePairs, KeepsLinks, TouchesOne, begun_draft, brought_link, exactly_one, draft_of, flip_in, flipped_slot, full_next, full_now, links_kept, touched_draft};
ghost use Rattle.ifmap_graph.specs.Turning.{sides_at};

use crate::ends::ItemEnds;
use crate::shelves::{Shelf, Shelves};
use crate::sided::Sided;
use crate::ways::ReplacedList;
use ifmap_ident::Item;
use ifmap_plans::ItemChange;
use ifmap_view::LinkSeen;
use slab::Slab;
use std::alloc::{AllocError as NoMemory, Global};

// The link to the other number of a slot that joins two, of which one is this.
fn far_end(ends: ItemEnds, at: u64, number: u64) -> Option<LinkSeen>
    ensures { result ≡ seen_at at (far_of (two_of ends) number) }
{
    match ends {
        ItemEnds::One(_) => None,
        ItemEnds::Pair(one, two) => other_end(one, two, at, number),
    }
}

fn other_end(one: u64, two: u64, at: u64, number: u64) -> Option<LinkSeen>
    ensures { result ≡ seen_at at (far_of (Some (one, two)) number) }
{
    if one == number {
        return Some(LinkSeen { other: two, at });
    }
    if two == number {
        return Some(LinkSeen { other: one, at });
    }
    None
}

// Whether a slot is to have something.
fn is_to_be_full(slots: &Slab<Shelf>, at: usize) -> bool
    ensures { result ≡ full_next slots.now at }
{
    match slots.get(at) {
        Some(shelf) => !shelf.stored.list_next().is_empty(),
        None => false,
    }
}

// Whether it has something.
fn is_now_full(slots: &Slab<Shelf>, at: usize) -> bool
    ensures { result ≡ full_now slots.now at }
{
    match slots.get(at) {
        Some(shelf) => !shelf.stored.list_now().is_empty(),
        None => false,
    }
}

// Whether a slot comes to be full or empty.
fn is_flipped(slots: &Slab<Shelf>, at: usize) -> bool
    ensures { result ≡ exactly_one (full_now slots.now at) (full_next slots.now at) }
{
    is_now_full(slots, at) != is_to_be_full(slots, at)
}

// The slot of an item, where it comes to be full or empty.
fn flipped_slot(shelves: &Shelves, item: &Item) -> Option<usize>
    ensures { result ≡ flipped_slot shelves.now item.now }
{
    match shelves.places.get(item) {
        Some(at) => slot_if_flipped(&shelves.slots, *at),
        None => None,
    }
}

fn slot_if_flipped(slots: &Slab<Shelf>, at: usize) -> Option<usize>
    ensures { result ≡ flip_in slots.now (Some at) }
{
    if is_flipped(slots, at) {
        Some(at)
    } else {
        None
    }
}

// A slot, where one was found.
fn add_slot(list: &mut Vec<usize>, found: Option<usize>) -> Result<(), NoMemory>
    ensures { OnOk result (list.new.items ≡ list.old.items ++ cons_option found []) }
{
    if let Some(at) = found {
        list.push(at)?;
    }
    Ok(())
}

// The slots of a change's items that come to be full or empty.
pub(crate) fn flipped_slots(
    alloc: Global,
    shelves: &Shelves,
    changes: &[ItemChange],
) -> Result<Vec<usize>, NoMemory>
    ensures { IfOk result (λ touched. touched.items
        ≡ filter_map (λ c. flipped_slot shelves.now c.item) changes.now) }
{
    let mut touched = Vec::new(alloc);
    for change in changes {
        add_slot(&mut touched, flipped_slot(shelves, &change.item))?;
    }
    Ok(touched)
}

// The link of a number that a slot brings, which is empty and is to have something.
fn coming_link(slots: &Slab<Shelf>, at: usize, number: u64) -> Option<LinkSeen>
    ensures { result ≡ brought_link slots.now number at }
{
    if !is_to_be_full(slots, at) || is_now_full(slots, at) {
        return None;
    }
    match slots.get(at) {
        Some(shelf) => far_end(shelf.ends, at as u64, number),
        None => None,
    }
}

// The links whose slots are to have something still.
fn keep_links(
    list: &mut Vec<LinkSeen>,
    slots: &Slab<Shelf>,
    links: &[LinkSeen],
) -> Result<(), NoMemory>
    ensures { OnOk result (list.new.items ≡ list.old.items ++ links_kept slots.now links.now) }
{
    for seen in links {
        if is_to_be_full(slots, seen.at as usize) {
            list.push(*seen)?;
        }
    }
    Ok(())
}

// The links of a number that stay.
fn staying_links(
    alloc: Global,
    slots: &Slab<Shelf>,
    links: &[LinkSeen],
) -> Result<Vec<LinkSeen>, NoMemory>
    ensures { IfOk result (λ list. list.items ≡ links_kept slots.now links.now) }
{
    let mut list = Vec::with_capacity(alloc, links.len())?;
    keep_links(&mut list, slots, links)?;
    Ok(list)
}

// The numbers that a slot joins.
fn numbers_of(slots: &Slab<Shelf>, at: usize) -> Option<(u64, u64)>
    ensures { result ≡ joined_pair (get slots.now at) }
{
    match slots.get(at) {
        Some(shelf) => two_of(shelf.ends),
        None => None,
    }
}

fn two_of(ends: ItemEnds) -> Option<(u64, u64)>
    ensures { result ≡ two_of ends }
{
    match ends {
        ItemEnds::One(_) => None,
        ItemEnds::Pair(one, two) => Some((one, two)),
    }
}

// The links of a number get a draft, where they have none: those that stay.
fn begin_draft(
    links: &mut Vec<Sided<LinkSeen>>,
    slots: &Slab<Shelf>,
    alloc: Global,
    place: usize,
    ways: &mut Vec<ReplacedList<LinkSeen>>,
) -> Result<(), NoMemory>
    requires place { place < length links.old.items }
    requires ready { AreExactlyDrafted ways.old.items links.old.items }
    ensures ready { AreExactlyDrafted ways.new.items links.new.items }
    ensures touched { TouchesOne place links.old.items links.new.items }
    ensures ok { OnOk result ((sides_at links.new.items place).draft ≡ Some (begun_draft slots.now
        (sides_at links.old.items place).draft (sides_at links.old.items place).now)) }
{
    if links[place].has_draft() {
        return Ok(());
    }
    let draft = staying_links(alloc, slots, links[place].list_now())?;
    ways.push(ReplacedList::new(alloc, place))?;
    set_draft(links, place, draft);
    Ok(())
}

// The draft of a number's links.
fn set_draft(links: &mut Vec<Sided<LinkSeen>>, place: usize, draft: Vec<LinkSeen>)
    requires { place < length links.old.items }
    ensures touched { TouchesOne place links.old.items links.new.items }
    ensures draft { (sides_at links.new.items place).draft ≡ Some draft.items }
{
    links[place].propose(draft);
}

// One link more in the draft of a number's links.
fn add_link(links: &mut Vec<Sided<LinkSeen>>, place: usize, seen: LinkSeen) -> Result<(), NoMemory>
    requires place { place < length links.old.items }
    requires drafted { IsSome (sides_at links.old.items place).draft }
    ensures touched { TouchesOne place links.old.items links.new.items }
    ensures ready { (ways : List (ℕ × List LinkSeen)) → AreExactlyDrafted ways links.old.items
        → AreExactlyDrafted ways links.new.items }
    ensures ok { OnOk result ((list : List LinkSeen)
        → (sides_at links.old.items place).draft ≡ Some list
        → (sides_at links.new.items place).draft ≡ Some (list ++ seen ∷ [])) }
{
    links[place].push_draft(seen)
}

// A slot is looked at for one of its numbers, whose links get a draft: those that stay, and the one
// that the slot brings.
fn touch_number(
    links: &mut Vec<Sided<LinkSeen>>,
    slots: &Slab<Shelf>,
    alloc: Global,
    at: usize,
    place: usize,
    ways: &mut Vec<ReplacedList<LinkSeen>>,
) -> Result<(), NoMemory>
    requires place { place < length links.old.items }
    requires ready { AreExactlyDrafted ways.old.items links.old.items }
    ensures ready { AreExactlyDrafted ways.new.items links.new.items }
    ensures touched { TouchesOne place links.old.items links.new.items }
    ensures ok { OnOk result ((sides_at links.new.items place).draft ≡ Some (begun_draft slots.now
        (sides_at links.old.items place).draft (sides_at links.old.items place).now
        ++ cons_option (brought_link slots.now place at) [])) }
{
    begin_draft(links, slots, alloc, place, ways)?;
    let Some(seen) = coming_link(slots, at, place as u64) else {
        return Ok(());
    };
    add_link(links, place, seen)
}

// A slot is looked at for both numbers that it joins.
fn touch_slot(
    links: &mut Vec<Sided<LinkSeen>>,
    slots: &Slab<Shelf>,
    alloc: Global,
    at: usize,
    ways: &mut Vec<ReplacedList<LinkSeen>>,
) -> Result<(), NoMemory>
    requires pairs { ArePairs slots.now (length links.old.items) }
    requires ready { AreExactlyDrafted ways.old.items links.old.items }
    ensures ready { AreExactlyDrafted ways.new.items links.new.items }
    ensures kept { KeepsLinks links.old.items links.new.items }
    ensures ok { OnOk result ((v : ℕ) → (sides_at links.new.items v).draft
        ≡ touched_draft slots.now at v (sides_at links.old.items v)) }
{
    let Some(numbers) = numbers_of(slots, at) else {
        return Ok(());
    };
    touch_number(links, slots, alloc, at, numbers.0 as usize, ways)?;
    touch_number(links, slots, alloc, at, numbers.1 as usize, ways)
}

// The drafts of links, where these slots come to be full or empty. After want of memory, some
// stand.
pub(crate) fn touch_slots(
    links: &mut Vec<Sided<LinkSeen>>,
    slots: &Slab<Shelf>,
    alloc: Global,
    touched: &[usize],
    ways: &mut Vec<ReplacedList<LinkSeen>>,
) -> Result<(), NoMemory>
    requires pairs { ArePairs slots.now (length links.old.items) }
    requires ready { AreExactlyDrafted ways.old.items links.old.items }
    requires bare { (v : ℕ) → (sides_at links.old.items v).draft ≡ None }
    ensures ready { AreExactlyDrafted ways.new.items links.new.items }
    ensures kept { KeepsLinks links.old.items links.new.items }
    ensures ok { OnOk result ((v : ℕ) → (sides_at links.new.items v).draft
        ≡ draft_of slots.now touched.now v (sides_at links.old.items v).now) }
{
    for at in touched {
        touch_slot(links, slots, alloc, *at, ways)?;
    }
    Ok(())
}

// The draft at a place goes, where there is one.
fn drop_draft(links: &mut Vec<Sided<LinkSeen>>, place: usize)
    requires { place < length links.old.items }
    ensures touched { TouchesOne place links.old.items links.new.items }
    ensures gone { (sides_at links.new.items place).draft ≡ None }
{
    links[place].discard();
}

// The drafts of links go.
pub(crate) fn drop_drafts(links: &mut Vec<Sided<LinkSeen>>, ways: &[ReplacedList<LinkSeen>])
    requires { AreExactlyDrafted ways.now links.old.items }
    ensures kept { KeepsLinks links.old.items links.new.items }
    ensures bare { (v : ℕ) → (sides_at links.new.items v).draft ≡ None }
{
    for way in ways {
        drop_draft(links, way.place());
    }
}
