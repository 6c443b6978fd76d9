//! Entries in their order, each once.
ghost use Rattle.std.specs.Prelude.{◌≡◌, ◌+◌, ◌≤◌, ◌<◌, [], OnErr, OnOk, IfOk, length, vec_capacity, vec_len};
ghost use Rattle.std.specs.List.Sorted.{IsStrictlySortedBy};
ghost use Rattle.ifmap_client.specs.EntrySets.{IsEntryPlace, without_entry};
ghost use Rattle.ifmap_folds.specs.Differences.{difference, entry_bytes, entry_order};
ghost use Rattle.ifmap_folds.specs.Folds.{with_entries};
ghost use Rattle.ifmap_folds.specs.ifmap_plans.Placing.{put};

use ifmap_elem::{Copied, Many};
use ifmap_search::Entry;
use std::alloc::{AllocError as NoMemory, Global};
use std::cmp::Ordering;
use std::marker::Model;

/// Entries in the order of results, each once. Contracts see them as a list, which rises strictly.
#[derive(Drop)]
pub struct EntrySet {
    entries: Many<Entry>,
}

impl Model for EntrySet {
    ghost use Rattle.std.specs.Prelude.{List};
    ghost use Rattle.std.specs.Coded.{codes};
    ghost use Rattle.std.specs.List.Sorted.{IsStrictlySortedBy};
    ghost use Rattle.ifmap_folds.specs.Differences.{entry_order};
    ghost use Rattle.ifmap_search.specs.contracts.results.Entry as the_entry;
    ghost use Rattle.ifmap_search.specs.declared.results.Entry.{Entry};

    ghost Value = { List Entry };

    ghost coded = { Prim.hlevel (codes, the_entry.the_row.coded) };

    ghost view = { λ kept. kept.entries };

    ghost invariant = { λ kept. IsStrictlySortedBy entry_order kept.entries };
}

impl EntrySet {
    /// No entries. It takes no memory.
    pub fn new(alloc: Global) -> EntrySet
        ensures { result ≡ [] }
    {
        EntrySet {
            entries: Many::new(alloc),
        }
    }

    /// The entries.
    pub fn entries(&self) -> &Many<Entry>
        ensures entries { result.now ≡ self.now }
        ensures rising { IsStrictlySortedBy entry_order result.now }
    {
        &self.entries
    }

    /// Puts each entry in its place, over the one that it equals if there is one. The entries are
    /// shared. The one error is want of memory, which leaves all as it was.
    pub fn add(&mut self, alloc: Global, entries: &Many<Entry>) -> Result<(), NoMemory>
        ensures added { OnOk result (self.new ≡ with_entries entries.now self.old) }
        ensures unchanged { OnErr result (self.new ≡ self.old) }
    {
        let added = entries.copy(alloc)?;
        self.entries.0.reserve(added.len())?;
        put_each(&mut self.entries.0, added.0);
        Ok(())
    }

    /// Takes out the entries that equal one of these. It takes no memory.
    pub fn remove(&mut self, entries: &Many<Entry>)
        ensures { self.new ≡ difference self.old entries.now }
    {
        remove_each(&mut self.entries.0, entries.as_slice());
    }
}

// How two entries stand to each other: by their items, and then by canonical bytes, which are not made
// for it.
fn entry_order(one: &Entry, other: &Entry) -> Ordering
    ensures { result ≡ entry_order one.now other.now }
{
    match one.item.item().cmp(other.item.item()) {
        Ordering::Equal => bytes_of(one).cmp(bytes_of(other)),
        order => order,
    }
}

#[tactic(auto, unfolding(ifmap_folds::specs::Differences::entry_bytes))]
fn bytes_of(entry: &Entry) -> &[u8]
    ensures { result.now ≡ entry_bytes entry.now }
{
    entry.element.bytes()
}

// Where an entry stands among some that rise, or where it would: it is found by halving.
fn place_of(set: &[Entry], entry: &Entry) -> Result<usize, usize>
    requires { IsStrictlySortedBy entry_order set.now }
    ensures { IsEntryPlace entry.now set.now result }
{
    set.binary_search_by(|other| entry_order(other, entry))
}

// Puts each in its place, one after the other. There is room for all.
fn put_each(set: &mut Vec<Entry>, added: Vec<Entry>)
    requires rising { IsStrictlySortedBy entry_order set.old.items }
    requires room { vec_len set.old + vec_len added ≤ vec_capacity set.old }
    ensures items { set.new.items ≡ with_entries added.items set.old.items }
    ensures rising { IsStrictlySortedBy entry_order set.new.items }
{
    for entry in added {
        put_entry(set, entry);
    }
}

// Puts an entry in its place. There is room for it.
fn put_entry(set: &mut Vec<Entry>, entry: Entry)
    requires rising { IsStrictlySortedBy entry_order set.old.items }
    requires room { vec_len set.old < vec_capacity set.old }
    ensures items { set.new.items ≡ put entry_order entry set.old.items }
    ensures len { vec_len set.new ≤ vec_len set.old + 1 }
    ensures capacity { vec_capacity set.new ≡ vec_capacity set.old }
{
    match place_of(set, &entry) {
        Ok(place) => set[place] = entry,
        Err(place) => {
            let placed = set.insert(place, entry).is_ok();
            prove!(placed);
        }
    }
}

// Takes out each, one after the other.
fn remove_each(set: &mut Vec<Entry>, removed: &[Entry])
    requires { IsStrictlySortedBy entry_order set.old.items }
    ensures items { set.new.items ≡ difference set.old.items removed.now }
    ensures rising { IsStrictlySortedBy entry_order set.new.items }
{
    for entry in removed {
        remove_entry(set, entry);
    }
}

// Takes out the one that equals an entry, if there is one.
fn remove_entry(set: &mut Vec<Entry>, entry: &Entry)
    requires { IsStrictlySortedBy entry_order set.old.items }
    ensures { set.new.items ≡ without_entry entry.now set.old.items }
{
    if let Ok(place) = place_of(set, entry) {
        set.remove(place);
    }
}
