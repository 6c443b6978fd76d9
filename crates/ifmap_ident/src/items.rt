//! Items.
ghost use Rattle.std.specs.Prelude.{◌≡◌, ◌↔◌, ◌-◌, ◌<◌, ◌^◌, min, IfSome, IsNone};
ghost use Rattle.std.specs.Cmp.{partial_order_from_own_ties};
ghost use Rattle.std.specs.Cmp.Rules.{comparing};
ghost use Rattle.std.specs.Ordering.{as_partial_cmp};
ghost use Rattle.std.proofs.Common.{rules};
ghost use Rattle.ifmap_ident.specs.Canon.{IsIdentifier};
ghost use Rattle.ifmap_ident.specs.Identifiers.{identifier_bytes};
ghost use Rattle.ifmap_ident.specs.Items.{IsCanonItem, IsItem, item_order, item_size, items_tie, pair_of, same_item};

use crate::identifiers::Identifier;
use ifmap_elem::{Copied, Equals};
use std::alloc::{AllocError as NoMemory, Global};
use std::cmp::Ordering;

/// What metadata stands on: an identifier, or a link of two.
#[derive(Debug, Drop)]
pub enum Item {
    /// One identifier.
    One(Identifier),
    /// Two different identifiers, the smaller first.
    Pair(Identifier, Identifier),
}

impl Item {
    /// The link of two identifiers; `None` exactly where they are equal. It takes no memory.
    pub fn pair(a: Identifier, b: Identifier) -> Option<Item>
        ensures pair { result ≡ pair_of a b }
        ensures none { IsNone result ↔ (identifier_bytes a ≡ identifier_bytes b) }
        ensures item { IfSome result IsItem }
        ensures canon { IsIdentifier a → IsIdentifier b → IfSome result IsCanonItem }
    {
        match a.cmp(&b) {
            Ordering::Less => Some(Item::Pair(a, b)),
            Ordering::Equal => None,
            Ordering::Greater => Some(Item::Pair(b, a)),
        }
    }

    /// How many canonical bytes the identifiers have together; at most 2^64 - 1. It takes no memory.
    pub fn size(&self) -> u64
        ensures size { result ≡ min (item_size self.now) (2 ^ 64 - 1) }
        ensures exact { item_size self.now < 2 ^ 64 → result ≡ item_size self.now }
    {
        match self {
            Item::One(a) => a.size(),
            Item::Pair(a, b) => a.size().saturating_add(b.size()),
        }
    }
}

impl Copied for Item {
    fn copy(&self, alloc: Global) -> Result<Self, NoMemory> {
        match self {
            Item::One(a) => Ok(Item::One(a.copy(alloc)?)),
            Item::Pair(a, b) => Ok(Item::Pair(a.copy(alloc)?, b.copy(alloc)?)),
        }
    }
}

impl Equals for Item {
    fn equals(&self, other: &Item) -> bool {
        match (self, other) {
            (Item::One(a), Item::One(b)) => a.equals(b),
            (Item::Pair(a, b), Item::Pair(c, d)) => a.equals(c) && b.equals(d),
            _ => false,
        }
    }
}

impl PartialEq for Item {
    ghost eq = { same_item };

    ghost laws = { Prim.search (comparing, rules) };

    fn eq(&self, other: &Item) -> bool {
        match (self, other) {
            (Item::One(a), Item::One(b)) => a == b,
            (Item::Pair(a, b), Item::Pair(c, d)) => a == c && b == d,
            _ => false,
        }
    }
}

impl Eq for Item {
    ghost laws = { Prim.search (comparing, rules) };
}

/// As lists of identifiers: an identifier comes before the links that begin with it.
impl Ord for Item {
    ghost cmp = { item_order };

    ghost total = { Prim.search (comparing, rules) };

    ghost matches_partial_cmp = { Prim.search (comparing, rules) };

    ghost matches_eq = { items_tie };

    fn cmp(&self, other: &Item) -> Ordering {
        match (self, other) {
            (Item::One(a), Item::One(b)) => a.cmp(b),
            (Item::One(a), Item::Pair(b, _)) => a.cmp(b).then(Ordering::Less),
            (Item::Pair(a, _), Item::One(b)) => a.cmp(b).then(Ordering::Greater),
            (Item::Pair(a, b), Item::Pair(c, d)) => a.cmp(c).then_with(|| b.cmp(d)),
        }
    }
}

impl PartialOrd for Item {
    ghost partial_cmp = { as_partial_cmp item_order };

    ghost laws = { partial_order_from_own_ties (Prim.search (comparing, rules)) items_tie };

    fn partial_cmp(&self, other: &Item) -> Option<Ordering> {
        Some(self.cmp(other))
    }
}
