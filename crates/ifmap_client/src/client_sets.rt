//! The sets that a client keeps of its subscriptions.
ghost use Rattle.std.specs.Prelude.{◌≡◌, OnErr, OnOk, IfSome, option_copied};
ghost use Rattle.std.specs.List.Sorted.{IsStrictlySortedBy};
ghost use Rattle.ifmap_client.specs.Keeping.{kept_sets, sets_of, without_sets};
ghost use Rattle.ifmap_folds.specs.Differences.{entry_order};
ghost use Rattle.ifmap_folds.specs.Folds.{fold_item, no_sets};
ghost use Rattle.ifmap_search.specs.declared.results.PollItem.TheVariants.{Delete, Search, Update};

use crate::entry_sets::EntrySet;
use ifmap_elem::{Copied, Many, Text};
use ifmap_search::{Entry, PollItem};
use std::alloc::{AllocError as NoMemory, Global};
use std::collections::BTreeMap;
use std::marker::Model;

/// What a client knows of its subscriptions, folded from what its polls were told: for each name that
/// has one, a set of entries in the order of results, each once. Contracts see the sets as a list of
/// names with their sets, and as a function of names by `sets_of`.
#[derive(Drop)]
pub struct ClientSets {
    sets: BTreeMap<Text, EntrySet>,
}

impl Model for ClientSets {
    ghost use Rattle.std.specs.Coded.{codes};
    ghost use Rattle.ifmap_client.specs.Keeping.{Kept};
    ghost use Rattle.ifmap_search.specs.contracts.results.Entry as the_entry;

    ghost Value = { Kept };

    ghost coded = { Prim.hlevel (codes, the_entry.the_row.coded) };

    ghost view = { λ kept. kept.sets.entries };
}

impl ClientSets {
    /// No sets. It takes no memory.
    pub fn new(alloc: Global) -> ClientSets
        ensures { sets_of result ≡ no_sets }
    {
        ClientSets {
            sets: BTreeMap::new(alloc),
        }
    }

    /// Takes what a poll was told: a result begins a set, what came goes into it and what went goes out
    /// of it, what was notified changes nothing, and an error ends the set that it names, or all. The
    /// entries are shared, so no element is copied; k of them cost k searches by halving in the set. The
    /// one error is want of memory, which leaves the sets as they were.
    pub fn take(&mut self, alloc: Global, item: &PollItem) -> Result<(), NoMemory>
        ensures folded { OnOk result (sets_of self.new ≡ fold_item item.now (sets_of self.old)) }
        ensures unchanged { OnErr result (self.new ≡ self.old) }
    {
        match item {
            PollItem::Search { name, entries } => begin_set(alloc, &mut self.sets, name, entries),
            PollItem::Update { name, entries } => add_entries(alloc, &mut self.sets, name, entries),
            PollItem::Delete { name, entries } => {
                remove_entries(&mut self.sets, name, entries);
                Ok(())
            }
            PollItem::Notify { .. } => Ok(()),
            PollItem::Error { name, .. } => {
                end_sets(&mut self.sets, name);
                Ok(())
            }
        }
    }

    /// The set of that name, if there is one. It takes no memory.
    pub fn set_of(&self, name: &Text) -> Option<&Many<Entry>>
        ensures set { option_copied result ≡ sets_of self.now name.now }
        ensures rising { IfSome result (λ set. IsStrictlySortedBy entry_order set.now) }
    {
        Some(self.sets.get(name)?.entries())
    }
}

// Begins a set of these entries, in place of the one of that name.
fn begin_set(
    alloc: Global,
    sets: &mut BTreeMap<Text, EntrySet>,
    name: &Text,
    entries: &Many<Entry>,
) -> Result<(), NoMemory>
    ensures folded { OnOk result (kept_sets sets.new
        ≡ fold_item (Search name.now entries.now) (kept_sets sets.old)) }
    ensures unchanged { OnErr result (sets.new.entries ≡ sets.old.entries) }
{
    let mut set = EntrySet::new(alloc);
    set.add(alloc, entries)?;
    sets.insert(name.copy(alloc)?, set)?;
    Ok(())
}

// Adds entries to the set of that name, which begins where there is none.
fn add_entries(
    alloc: Global,
    sets: &mut BTreeMap<Text, EntrySet>,
    name: &Text,
    entries: &Many<Entry>,
) -> Result<(), NoMemory>
    ensures folded { OnOk result (kept_sets sets.new
        ≡ fold_item (Update name.now entries.now) (kept_sets sets.old)) }
    ensures unchanged { OnErr result (sets.new.entries ≡ sets.old.entries) }
{
    match sets.get_mut(name) {
        Some(set) => set.add(alloc, entries),
        None => begin_set(alloc, sets, name, entries),
    }
}

// Takes entries out of the set of that name, if there is one.
fn remove_entries(sets: &mut BTreeMap<Text, EntrySet>, name: &Text, entries: &Many<Entry>)
    ensures { kept_sets sets.new ≡ fold_item (Delete name.now entries.now) (kept_sets sets.old) }
{
    if let Some(set) = sets.get_mut(name) {
        set.remove(entries);
    }
}

// Ends the set of that name, or all where none is named.
fn end_sets(sets: &mut BTreeMap<Text, EntrySet>, name: &Option<Text>)
    ensures { kept_sets sets.new ≡ without_sets name.now (kept_sets sets.old) }
{
    match name {
        Some(name) => {
            sets.remove(name);
        }
        None => sets.clear(),
    }
}
