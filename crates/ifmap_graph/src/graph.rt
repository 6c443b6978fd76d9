//! A graph's parts together, and the calls that read them, on either side.
ghost use Rattle.std.specs.Prelude.{◌≡◌, ℕ, ◌<◌, [], Some, None, IfSome, Contains, length, option_copied, slice_get};
ghost use Rattle.ifmap_ident.specs.declared.identifiers.Identifier.{Identifier};
ghost use Rattle.ifmap_ident.specs.Identifiers.{identifier_bytes, identifier_order};
ghost use Rattle.ifmap_pool.specs.Holdings.{IsPool, Names, key_at};
ghost use Rattle.ifmap_graph.specs.Counted.{AreSoMany, count_links};
ghost use Rattle.ifmap_graph.specs.Inside.{IsOwn, links_at};
ghost use Rattle.ifmap_graph.specs.Seen.{AreUsed, HasPoolNumber, IsLean, IsStill, links_next, links_now, rows_next, rows_now};
ghost use Rattle.ifmap_graph.specs.Shelved.{list_at, rows_by};
ghost use Rattle.ifmap_graph.specs.Sides.{list_next, list_now};
ghost use Rattle.ifmap_view.specs.Rows.{stored_linked, stored_on};
ghost use Rattle.ifmap_view.specs.Views.{IsView};

use crate::shelves::Shelves;
use crate::sided::Sided;
use ifmap_elem::Equals;
use ifmap_ident::laws::bytes_tell_identifiers_apart;
use ifmap_ident::{Identifier, Item};
use ifmap_plans::Items;
use ifmap_pool::Pool;
use ifmap_rows::Keyed;
use ifmap_steps::Steps;
use ifmap_view::{LinkSeen, Row, View};
use std::alloc::Global;
use std::marker::Model;
use std::sync::ledger::Ledger;

/// Attachments by item, the numbers of identifiers, and the links of each number; and beside each
/// list its successor, where a plan is out. Contracts see the list of shelves.
#[derive(Drop)]
pub struct Graph {
    pub(crate) names: Pool<Identifier>,
    pub(crate) shelves: Shelves,
    pub(crate) links: Vec<Sided<LinkSeen>>,
}

impl Model for Graph {
    ghost use Rattle.slab.specs.Slab.{get};
    ghost use Rattle.ifmap_ident.specs.contracts.identifiers.Identifier as the_identifier;
    ghost use Rattle.ifmap_ident.specs.contracts.items.Item as the_item;
    ghost use Rattle.ifmap_view.specs.contracts.views.LinkSeen as the_link;
    ghost use Rattle.ifmap_graph.specs.contracts.shelves.Shelf as the_shelf;
    ghost use Rattle.ifmap_graph.specs.Inside.{GraphInside, IsInside, inside_code, shown_shelves};

    ghost Value = { GraphInside };

    ghost coded = { inside_code the_item.the_row.coded the_shelf.the_row.coded
        the_identifier.the_row.coded the_link.the_row.coded };

    ghost view = { λ g. record {
      shelves = shown_shelves (get g.shelves.slots) g.shelves.places.entries;
      names = g.names;
      links = g.links.items;
      places = g.shelves.places.entries;
    } };

    ghost invariant = { λ g.
        IsInside g.names (get g.shelves.slots) g.shelves.places.entries g.links.items };
}

// Identifiers that values have are one where their bytes are: it looks at them, and their types
// tell.
fn tell_apart(one: &Identifier, other: &Identifier)
    ensures { identifier_bytes one.now ≡ identifier_bytes other.now → one.now ≡ other.now }
{
    let _ = one.equals(other);
}

// The key of a number that was found is the identifier.
fn tell_number(names: &Pool<Identifier>, number: u64, id: &Identifier)
    requires { Names identifier_order names.now number id.now }
    ensures { key_at names.now number ≡ Some id.now }
{
    match names.key_of(number) {
        Some(key) => tell_apart(key, id),
        None => unreachable!(),
    }
}

// The number of an identifier, where it is held.
fn number_in(names: &Pool<Identifier>, id: &Identifier) -> Option<u64>
    ensures found { IfSome result (λ v. key_at names.now v ≡ Some id.now) }
    ensures only { (v : ℕ) → key_at names.now v ≡ Some id.now → result ≡ Some v }
    ensures whole { IsPool identifier_order names.now }
{
    match names.number_of(id) {
        Some(number) => {
            tell_number(names, number, id);
            Some(number)
        }
        None => None,
    }
}

// The links of a number as they are, drafts left out.
fn links_now(links: &[Sided<LinkSeen>], number: u64) -> &[LinkSeen]
    ensures { result.now ≡ links_at list_now links.now number }
{
    match links.get(number as usize) {
        Some(sides) => sides.list_now(),
        None => &[],
    }
}

// The same, as they are to be.
fn links_next(links: &[Sided<LinkSeen>], number: u64) -> &[LinkSeen]
    ensures { result.now ≡ links_at list_next links.now number }
{
    match links.get(number as usize) {
        Some(sides) => sides.list_next(),
        None => &[],
    }
}

// The link at a place.
fn link_in(links: &[LinkSeen], i: u64) -> LinkSeen
    requires { i < length links.now }
    ensures { slice_get links.now i ≡ Some result }
{
    links[i as usize]
}

impl Graph {
    /// Nothing. It takes no memory.
    pub fn new(alloc: Global) -> Graph
        ensures shelves { result.shelves ≡ [] }
        ensures links { result.links ≡ [] }
        ensures places { result.places ≡ [] }
        ensures numbers { (v : ℕ) → key_at result.names v ≡ None }
        ensures own { (a : Identifier) → IsOwn result a 0 }
        ensures still { IsStill result }
        ensures lean { IsLean [] result }
    {
        Graph {
            names: Pool::new(alloc),
            shelves: Shelves::new(alloc),
            links: Vec::new(alloc),
        }
    }

    /// What holds of every view.
    pub fn is_view(&self)
        ensures { IsView (rows_now self.now) (key_at self.now.names) (links_now self.now) }
    {
        let _ = &self.names;
        bytes_tell_identifiers_apart();
    }

    /// How many identifiers have a number. Where nothing is out or left behind, these are the
    /// identifiers that stand in an item with an attachment or that others hold.
    pub fn identifiers(&self) -> u64
        ensures count { AreSoMany result (HasPoolNumber self.now) }
        ensures used { IsLean [] self.now → AreUsed self.now }
    {
        bytes_tell_identifiers_apart();
        self.names.len()
    }

    /// How many links carry an attachment. It walks all items.
    pub fn links(&self) -> u64
        ensures { result ≡ count_links (rows_now self.now) }
    {
        self.shelves.links()
    }

    // The calls of a view, as it is to be.

    pub(crate) fn next_is_view(&self)
        ensures { IsView (rows_next self.now) (key_at self.now.names) (links_next self.now) }
    {
        let _ = &self.names;
        bytes_tell_identifiers_apart();
    }

    pub(crate) fn next_number(&self, id: &Identifier) -> Option<u64>
        ensures found { IfSome result (λ v. key_at self.now.names v ≡ Some id.now) }
        ensures only { (v : ℕ) → key_at self.now.names v ≡ Some id.now → result ≡ Some v }
        ensures whole { IsView (rows_by (list_at list_next) self.now.shelves)
            (key_at self.now.names) (links_at list_next self.now.links) }
    {
        bytes_tell_identifiers_apart();
        number_in(&self.names, id)
    }

    pub(crate) fn key_of(&self, number: u64) -> Option<&Identifier>
        ensures { option_copied result ≡ key_at self.now.names number }
    {
        self.names.key_of(number)
    }

    pub(crate) fn next_at(&self, item: &Item) -> &[Row]
        ensures { result.now ≡ stored_on item.now (rows_by (list_at list_next) self.now.shelves) }
    {
        self.shelves.next_at(item)
    }

    pub(crate) fn next_count(&self, number: u64) -> u64
        ensures { result ≡ length (links_at list_next self.now.links number) }
    {
        links_next(&self.links, number).len() as u64
    }

    pub(crate) fn next_link(&self, number: u64, i: u64) -> LinkSeen
        requires { i < length (links_at list_next self.now.links number) }
        ensures { slice_get (links_at list_next self.now.links number) i ≡ Some result }
    {
        link_in(links_next(&self.links, number), i)
    }

    pub(crate) fn next_stored(&self, seen: LinkSeen) -> &[Row]
        requires { (v : ℕ) × Contains (links_at list_next self.now.links v) seen }
        ensures { (v : ℕ) → Contains (links_at list_next self.now.links v) seen
            → result.now ≡ stored_linked (key_at self.now.names v)
            (key_at self.now.names seen.other) (rows_by (list_at list_next) self.now.shelves) }
    {
        self.shelves.slots[seen.at as usize].stored.list_next()
    }
}

impl View for Graph {
    ghost rows = { λ g. rows_by (list_at list_now) g.shelves };

    ghost id_at = { λ g. key_at g.names };

    ghost links = { λ g. links_at list_now g.links };

    fn number(&self, id: &Identifier) -> Option<u64> {
        bytes_tell_identifiers_apart();
        number_in(&self.names, id)
    }

    fn identifier(&self, number: u64) -> Option<&Identifier> {
        self.names.key_of(number)
    }

    fn stored_at(&self, item: &Item) -> &[Row] {
        self.shelves.rows_at(item)
    }

    fn link_count(&self, number: u64) -> u64 {
        links_now(&self.links, number).len() as u64
    }

    fn link_at<L: Ledger>(&self, number: u64, i: u64, steps: &mut Steps<L>) -> LinkSeen {
        steps.tick();
        link_in(links_now(&self.links, number), i)
    }

    fn link_stored(&self, seen: LinkSeen) -> &[Row] {
        self.shelves.slots[seen.at as usize].stored.list_now()
    }
}

impl Keyed for Graph {
    fn row_with_key(&self, item: &Item, row: &Row) -> Option<&Row> {
        self.shelves.row_with_key(item, row)
    }
}

impl Items for Graph {
    fn item_after<L: Ledger>(&self, item: Option<&Item>, steps: &mut Steps<L>) -> Option<&Item> {
        self.shelves.item_after(item, steps)
    }
}
