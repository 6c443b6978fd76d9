//! Holds of identifiers that others than items have.
ghost use Rattle.std.specs.Prelude.{◌≡◌, ℕ, ◌+◌, ◌-◌, ◌<◌, Some, IfOk, IsSome, OnOk, OnErr};
ghost use Rattle.ifmap_ident.specs.declared.identifiers.Identifier.{Identifier};
ghost use Rattle.ifmap_ident.specs.Canon.{IsIdentifier};
ghost use Rattle.ifmap_ident.specs.Identifiers.{identifier_order};
ghost use Rattle.ifmap_pool.specs.Holdings.{holds_at, key_at, once};
ghost use Rattle.ifmap_graph.specs.Back.{KeepsShelves};
ghost use Rattle.ifmap_graph.specs.Inside.{IsOwn};
ghost use Rattle.ifmap_graph.specs.Seen.{BringsNoNumbers, HasFewOwn};
ghost use Rattle.ifmap_graph.specs.Turning.{sides_at};

use crate::bringing::MOST_ITEMS;
use crate::graph::Graph;
use crate::placing::lengthen;
use ifmap_elem::Copied;
use ifmap_ident::Identifier;
use ifmap_ident::laws::bytes_tell_identifiers_apart;
use std::alloc::{AllocError as NoMemory, Global};

impl Graph {
    /// The number of an identifier, held once more. After want of memory, all is as before but for
    /// room.
    pub fn hold(&mut self, alloc: Global, id: &Identifier) -> Result<u64, NoMemory>
        requires canon { IsIdentifier id.now }
        requires few { HasFewOwn self.old }
        ensures named { IfOk result (λ v. key_at self.new.names v ≡ Some id.now) }
        ensures kept { (v : ℕ) (a : Identifier) → key_at self.old.names v ≡ Some a
            → key_at self.new.names v ≡ Some a }
        ensures again { IfOk result (λ v. IsSome (key_at self.old.names v)
            → 1 < holds_at self.new.names v) }
        ensures own { OnOk result ((a : Identifier) (own : ℕ) → IsOwn self.old a own
            → IsOwn self.new a (own + once identifier_order id.now a)) }
        ensures links { (v : ℕ) → sides_at self.new.links v ≡ sides_at self.old.links v }
        ensures keeps { KeepsShelves self.old self.new }
        ensures err { OnErr result (self.new.names.live ≡ self.old.names.live) }
    {
        bytes_tell_identifiers_apart();
        if self.shelves.places.len() >= MOST_ITEMS {
            return Err(NoMemory);
        }
        let key = id.copy(alloc)?;
        self.names.reserve(1)?;
        lengthen(&mut self.links, alloc, self.names.limit())?;
        Ok(self.names.hold(key))
    }

    /// Lets go of one hold of a number that others than items hold. It takes no memory.
    pub fn release(&mut self, number: u64)
        requires { (a : Identifier) × (own : ℕ) × (key_at self.old.names number ≡ Some a)
            × IsOwn self.old a own × (0 < own) }
        ensures own { (a other : Identifier) (own : ℕ) → key_at self.old.names number ≡ Some a
            → IsOwn self.old other own
            → IsOwn self.new other (own - once identifier_order a other) }
        ensures numbers { BringsNoNumbers self.old self.new }
        ensures stays { (v : ℕ) → (v ≡ number → 1 < holds_at self.old.names v)
            → key_at self.new.names v ≡ key_at self.old.names v }
        ensures links { self.new.links ≡ self.old.links }
        ensures keeps { KeepsShelves self.old self.new }
    {
        self.names.release(number);
    }
}
