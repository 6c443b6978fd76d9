//! What changes in one shelf: its draft, its list, and how often it is waited for. Only `make_next`
//! takes memory.
ghost use Rattle.std.specs.Prelude.{◌≡◌, ◌⊎◌, ◌+◌, ◌-◌, ◌<◌, ◌^◌, [], ◌∷◌, true, false, Some, None, IfOk, IsSome, if◌then◌else◌};
ghost use Rattle.std.specs.BTreeMap.{is_at};
ghost use Rattle.slab.specs.Slab.{get, with_value};
ghost use Rattle.ifmap_ident.specs.declared.items.Item.{Item};
ghost use Rattle.ifmap_ident.specs.Items.{item_order};
ghost use Rattle.ifmap_meta.specs.declared.stored.Stored.{Stored};
ghost use Rattle.ifmap_plans.specs.Lists.{next_on};
ghost use Rattle.ifmap_view.specs.Rows.{stored_on};
ghost use Rattle.ifmap_graph.specs.declared.shelves.Shelf.{Shelf};
ghost use Rattle.ifmap_graph.specs.Drafted.{AreBare, KeepRows, StayShelved};
ghost use Rattle.ifmap_graph.specs.Shelved.{AreShelved, HasDraft, HasNoDraft, slot_of_item, rows_on_side};
ghost use Rattle.ifmap_graph.specs.Sides.{list_next, list_now};
ghost use Rattle.ifmap_graph.specs.Waits.{WaitsFor, waits_on};

use crate::row_lists::RowList;
use crate::shelves::{Shelf, Shelves};
use ifmap_ident::Item;
use ifmap_plans::ItemChange;
use slab::Slab;
use std::alloc::{AllocError as NoMemory, Global};

// The slot's list after a change, for which what lags behind it may be used up.
fn make_next_at(
    slots: &mut Slab<Shelf>,
    at: usize,
    alloc: Global,
    change: &ItemChange,
) -> Result<Box<RowList>, NoMemory>
    requires { IsSome (get slots.old at) }
    ensures next { (s : Shelf) → get slots.old at ≡ Some s → IfOk result (λ list. list.value
        ≡ next_on change.now.removed change.now.added s.stored.now) }
    ensures slots { (s : Shelf) → get slots.old at ≡ Some s
        → slots.new ≡ with_value slots.old at s }
{
    let shelf = &mut slots[at];
    shelf.stored.make_next(alloc, change)
}

// The draft of a slot's list.
fn propose_at(slots: &mut Slab<Shelf>, at: usize, list: Box<RowList>)
    requires { IsSome (get slots.old at) }
    ensures { (s : Shelf) → get slots.old at ≡ Some s → slots.new ≡ with_value slots.old at
        (record s { stored = record s.stored { draft = Some list.value } }) }
{
    let shelf = &mut slots[at];
    shelf.stored.propose(list);
}

// The slot's draft takes its list's place. Gives the list that was.
fn accept_at(slots: &mut Slab<Shelf>, at: usize) -> RowList
    requires { (s : Shelf) × (get slots.old at ≡ Some s) × IsSome s.stored.draft }
    ensures slots { (s : Shelf) → get slots.old at ≡ Some s → slots.new ≡ with_value slots.old at
        (record s { stored = record { now = list_next s.stored; draft = None } }) }
    ensures old { (s : Shelf) → get slots.old at ≡ Some s → result ≡ s.stored.now }
{
    let shelf = &mut slots[at];
    shelf.stored.accept()
}

// The slot has no draft any more.
fn discard_at(slots: &mut Slab<Shelf>, at: usize)
    requires { IsSome (get slots.old at) }
    ensures { (s : Shelf) → get slots.old at ≡ Some s → slots.new ≡ with_value slots.old at
        (record s { stored = record s.stored { draft = None } }) }
{
    let shelf = &mut slots[at];
    shelf.stored.discard();
}

// The slot's list changes places with another.
fn exchange_at(slots: &mut Slab<Shelf>, at: usize, list: &mut RowList)
    requires { IsSome (get slots.old at) }
    ensures slots { (s : Shelf) → get slots.old at ≡ Some s → slots.new ≡ with_value slots.old at
        (record s { stored = record s.stored { now = list.old } }) }
    ensures old { (s : Shelf) → get slots.old at ≡ Some s → list.new ≡ s.stored.now }
{
    let shelf = &mut slots[at];
    shelf.stored.exchange(list);
}

// One change more that is out names the slot's item.
fn wait_at(slots: &mut Slab<Shelf>, at: usize)
    requires { (s : Shelf) × (get slots.old at ≡ Some s) × (s.waits < 2 ^ 64 - 1) }
    ensures { (s : Shelf) → get slots.old at ≡ Some s → slots.new ≡ with_value slots.old at
        (record s { waits = s.waits + 1 }) }
{
    let shelf = &mut slots[at];
    shelf.waits = shelf.waits + 1;
}

// And one less. Gives how many are left.
fn unwait_at(slots: &mut Slab<Shelf>, at: usize) -> u64
    requires { (s : Shelf) × (get slots.old at ≡ Some s) × (0 < s.waits) }
    ensures slots { (s : Shelf) → get slots.old at ≡ Some s → slots.new ≡ with_value slots.old at
        (record s { waits = s.waits - 1 }) }
    ensures left { (s : Shelf) → get slots.old at ≡ Some s → result ≡ s.waits - 1 }
{
    let shelf = &mut slots[at];
    shelf.waits = shelf.waits - 1;
    shelf.waits
}

impl Shelves {
    /// What is stored after a change on its item, which has a shelf. The one error is want of memory.
    pub fn make_next(
        &mut self,
        alloc: Global,
        change: &ItemChange,
    ) -> Result<Box<RowList>, NoMemory>
        requires shelved { AreShelved self.old }
        requires there { IsSome (slot_of_item self.old change.now.item) }
        ensures next { IfOk result (λ list. list.value
            ≡ next_on change.now.removed change.now.added
            (stored_on change.now.item (rows_on_side list_now self.old))) }
        ensures same { self.new ≡ self.old }
    {
        let at = self.places[&change.item];
        make_next_at(&mut self.slots, at, alloc, change)
    }

    /// What is to be stored on an item that has a shelf.
    pub fn propose(&mut self, item: &Item, list: Box<RowList>)
        requires shelved { AreShelved self.old }
        requires there { IsSome (slot_of_item self.old item.now) }
        ensures now { rows_on_side list_now self.new ≡ rows_on_side list_now self.old }
        ensures next { (x : Item) → stored_on x (rows_on_side list_next self.new)
            ≡ (if is_at (item_order item.now) x then list.value
            else stored_on x (rows_on_side list_next self.old)) }
        ensures drafts { (x : Item) → HasDraft self.new x
            → HasDraft self.old x ⊎ (is_at (item_order item.now) x ≡ true) }
        ensures kept { (x : Item) → HasDraft self.old x → HasDraft self.new x }
        ensures drafted { HasDraft self.new item.now }
        ensures stays { StayShelved self.old self.new }
    {
        let at = self.places[item];
        propose_at(&mut self.slots, at, list);
    }

    /// What was to be stored on an item that has a draft is stored. Gives the list that was.
    pub fn accept(&mut self, item: &Item) -> RowList
        requires shelved { AreShelved self.old }
        requires drafted { HasDraft self.old item.now }
        ensures next { rows_on_side list_next self.new ≡ rows_on_side list_next self.old }
        ensures now { (x : Item) → stored_on x (rows_on_side list_now self.new)
            ≡ stored_on x (if is_at (item_order item.now) x then rows_on_side list_next self.old
            else rows_on_side list_now self.old) }
        ensures old { result ≡ stored_on item.now (rows_on_side list_now self.old) }
        ensures drafts { (x : Item) → HasDraft self.new x
            → HasDraft self.old x × (is_at (item_order item.now) x ≡ false) }
        ensures kept { (x : Item) → is_at (item_order item.now) x ≡ false → HasDraft self.old x
            → HasDraft self.new x }
        ensures stays { StayShelved self.old self.new }
    {
        let at = self.places[item];
        accept_at(&mut self.slots, at)
    }

    /// What is stored on an item that has a shelf is what is to be.
    pub fn discard(&mut self, item: &Item)
        requires shelved { AreShelved self.old }
        requires there { IsSome (slot_of_item self.old item.now) }
        ensures now { rows_on_side list_now self.new ≡ rows_on_side list_now self.old }
        ensures next { (x : Item) → stored_on x (rows_on_side list_next self.new)
            ≡ stored_on x (if is_at (item_order item.now) x then rows_on_side list_now self.old
            else rows_on_side list_next self.old) }
        ensures drafts { (x : Item) → HasDraft self.new x
            → HasDraft self.old x × (is_at (item_order item.now) x ≡ false) }
        ensures stays { StayShelved self.old self.new }
    {
        let at = self.places[item];
        discard_at(&mut self.slots, at);
    }

    /// One change more that is out names an item that has a shelf.
    pub fn wait(&mut self, item: &Item)
        requires shelved { AreShelved self.old }
        requires there { IsSome (slot_of_item self.old item.now) }
        requires few { waits_on self.old item.now < 2 ^ 64 - 1 }
        ensures keeps { KeepRows self.old self.new }
        ensures waits { WaitsFor (item.now ∷ []) self.old self.new }
        ensures drafts { (x : Item) → HasDraft self.new x → HasDraft self.old x }
        ensures kept { (x : Item) → HasDraft self.old x → HasDraft self.new x }
    {
        let at = self.places[item];
        wait_at(&mut self.slots, at);
    }

    /// And one less. Gives how many are left.
    pub fn unwait(&mut self, item: &Item) -> u64
        requires shelved { AreShelved self.old }
        requires there { IsSome (slot_of_item self.old item.now) }
        requires waited { 0 < waits_on self.old item.now }
        ensures keeps { KeepRows self.old self.new }
        ensures left { result ≡ waits_on self.new item.now }
        ensures waits { WaitsFor (item.now ∷ []) self.new self.old }
        ensures bare { AreBare self.old → AreBare self.new }
    {
        let at = self.places[item];
        unwait_at(&mut self.slots, at)
    }

    /// Exchanges what is stored on an item, whose shelf has no draft, with another list.
    pub fn exchange(&mut self, item: &Item, list: &mut RowList)
        requires shelved { AreShelved self.old }
        requires drafted { HasNoDraft self.old item.now }
        ensures now { (x : Item) → stored_on x (rows_on_side list_now self.new)
            ≡ (if is_at (item_order item.now) x then list.old
            else stored_on x (rows_on_side list_now self.old)) }
        ensures next { (x : Item) → stored_on x (rows_on_side list_next self.new)
            ≡ (if is_at (item_order item.now) x then list.old
            else stored_on x (rows_on_side list_next self.old)) }
        ensures old { list.new ≡ stored_on item.now (rows_on_side list_now self.old) }
        ensures bare { AreBare self.old → AreBare self.new }
        ensures stays { StayShelved self.old self.new }
    {
        let at = self.places[item];
        exchange_at(&mut self.slots, at, list);
    }
}
