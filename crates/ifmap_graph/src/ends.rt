//! The numbers of an item's identifiers, held and let go with its shelf.
ghost use Rattle.std.specs.Prelude.{ℕ, ◌-◌, ◌<◌, ◌≤◌, ◌≡◌, ◌^◌};
ghost use Rattle.std.specs.declared.cmp.Ordering.TheVariants.{Less};
ghost use Rattle.ifmap_ident.specs.declared.identifiers.Identifier.{Identifier};
ghost use Rattle.ifmap_ident.specs.declared.items.Item.{Item};
ghost use Rattle.ifmap_ident.specs.declared.items.Item.TheVariants.{Pair};
ghost use Rattle.ifmap_ident.specs.Identifiers.{identifier_order};
ghost use Rattle.ifmap_ident.specs.Items.{IsItem};
ghost use Rattle.ifmap_pool.specs.Holdings.{Names, holds_at};
ghost use Rattle.ifmap_graph.specs.declared.ends.ItemEnds.TheVariants as the_ends;
ghost use Rattle.ifmap_graph.specs.Named.{AreEnds, HoldsEnds, LetsEndsGo};

use ifmap_ident::{Identifier, Item};
use ifmap_pool::Pool;

/// The numbers of an item's identifiers.
#[derive(Clone, Copy, Debug, PartialEq, Eq)]
pub enum ItemEnds {
    One(u64),
    Pair(u64, u64),
}

// Holds both identifiers of a link, and gives their numbers.
fn hold_pair(names: &mut Pool<Identifier>, a: Identifier, b: Identifier) -> ItemEnds
    requires room { 2 ≤ names.old.spare }
    requires few { (v : ℕ) → holds_at names.old v < 2 ^ 64 - 2 }
    ensures { HoldsEnds names.old names.new (Pair a b) result }
{
    let one = names.hold(a);
    let two = names.hold(b);
    ItemEnds::Pair(one, two)
}

/// Holds the identifiers of an item, and gives their numbers. It takes no memory.
pub fn hold_ends(names: &mut Pool<Identifier>, item: Item) -> ItemEnds
    requires room { 2 ≤ names.old.spare }
    requires few { (v : ℕ) → holds_at names.old v < 2 ^ 64 - 2 }
    ensures { HoldsEnds names.old names.new item result }
{
    match item {
        Item::One(a) => ItemEnds::One(names.hold(a)),
        Item::Pair(a, b) => hold_pair(names, a, b),
    }
}

// Lets go of both identifiers of a link.
fn release_pair(names: &mut Pool<Identifier>, one: u64, two: u64)
    requires { (a : Identifier) × (b : Identifier) × (identifier_order a b ≡ Less)
        × Names identifier_order names.old one a × Names identifier_order names.old two b }
    ensures { LetsEndsGo names.old names.new (the_ends.Pair one two) }
{
    names.release(one);
    names.release(two);
}

/// Lets go of the identifiers of an item, by their numbers. It takes no memory.
pub fn release_ends(names: &mut Pool<Identifier>, ends: ItemEnds)
    requires { (item : Item) × IsItem item × AreEnds names.old item ends }
    ensures { LetsEndsGo names.old names.new ends }
{
    match ends {
        ItemEnds::One(number) => names.release(number),
        ItemEnds::Pair(one, two) => release_pair(names, one, two),
    }
}
