//! Lists.
ghost use Rattle.std.specs.Prelude.{◌≡◌, ◌↔◌, ◌++◌, ◌∷◌, ◌<◌, ◌^◌, ◌-◌, [], length, slice_get, IfOk, IsSome, IsTrue, OnErr, OnOk};
ghost use Rattle.std.specs.Iterator.Adapters.{IterYieldsInOrder};
ghost use Rattle.std.specs.Option.{option_copied, option_to_list};
ghost use Rattle.std.specs.Slice.Iter.{iter_rest};
ghost use Rattle.std.specs.Cmp.Lexicographic.{lists_agrees, lists_po, lists_ties, lists_total, pointwise, slice_cmp, slice_partial_cmp};
ghost use Rattle.std.specs.Cmp.Rules.{comparing};
ghost use Rattle.std.proofs.Common.{rules};

use crate::copying::Copied;
use std::alloc::{AllocError as NoMemory, Global};
use std::cmp::Ordering;
use std::marker::Model;
use std::slice::Iter;

/// A vector, which contracts see as the list of its members. A type may hold itself through it, as
/// an element holds elements.
#[derive(Debug, Drop)]
pub struct Many<T>(pub Vec<T>);

impl<T> Model for Many<T> {
    ghost use Rattle.std.specs.Prelude.{List};
    ghost use Rattle.std.specs.Coded.{coded_list};

    ghost Value = { List T };

    ghost coded = { coded_list T.code };

    ghost view = { λ many. many.0.items };
}

impl<T> Many<T> {
    /// No members.
    pub fn new(alloc: Global) -> Many<T>
        ensures { result ≡ [] }
    {
        Many(Vec::new(alloc))
    }

    /// The members, in order.
    pub fn as_slice(&self) -> &[T]
        ensures { result.now ≡ self.now }
    {
        self.0.as_slice()
    }

    /// How many members there are.
    pub fn len(&self) -> usize
        ensures { result ≡ length self.now }
    {
        self.0.len()
    }

    /// Whether there are none.
    pub fn is_empty(&self) -> bool
        ensures { IsTrue result ↔ (self.now ≡ []) }
    {
        self.0.is_empty()
    }

    /// The members, one after another.
    pub fn iter(&self) -> Iter<'_, T>
        ensures rest { iter_rest result ≡ self.now }
        ensures len { length (iter_rest result) ≡ length self.now }
        ensures bound { length (iter_rest result) < 2 ^ 64 }
        ensures runs { IterYieldsInOrder T }
    {
        self.0.iter()
    }

    /// The first member, if there is one.
    pub fn first(&self) -> Option<&T>
        ensures { option_copied result ≡ slice_get self.now 0 }
    {
        self.0.first()
    }

    /// The last member, if there is one.
    pub fn last(&self) -> Option<&T>
        ensures { option_copied result ≡ slice_get self.now (length self.now - 1) }
    {
        self.0.last()
    }

    /// Puts a member after the others. The one error is want of memory, and leaves the list as it was.
    pub fn push(&mut self, member: T) -> Result<(), NoMemory>
    where
        T: Drop,
        ensures pushed { OnOk result (self.new ≡ self.old ++ member ∷ []) }
        ensures unchanged { OnErr result (self.new ≡ self.old) }
    {
        self.0.push(member)?;
        Ok(())
    }

    /// Takes out the last member, if there is one.
    pub fn pop(&mut self) -> Option<T>
        ensures taken { self.old ≡ self.new ++ option_to_list result }
        ensures some { IsSome result ↔ (0 < length self.old) }
    {
        self.0.pop()
    }

    /// Takes out all members.
    pub fn clear(&mut self)
    where
        T: Drop,
        ensures { self.new ≡ [] }
    {
        self.0.clear();
    }
}

impl<T: Copied> Copied for Many<T> {
    fn copy(&self, alloc: Global) -> Result<Self, NoMemory> {
        let members: &[T] = self.0.as_slice();
        Ok(Many(copy_members(alloc, members)?))
    }
}

fn copy_members<T: Copied>(alloc: Global, members: &[T]) -> Result<Vec<T>, NoMemory>
    ensures { IfOk result (λ made. made.items ≡ members.now) }
{
    let mut made = Vec::with_capacity(alloc, members.len())?;
    for member in members {
        made.push(member.copy(alloc)?)?;
    }
    Ok(made)
}

impl<T: PartialEq> PartialEq for Many<T> {
    ghost eq = { pointwise T.eq };

    ghost laws = { Prim.search (comparing, rules) };

    fn eq(&self, other: &Many<T>) -> bool {
        self.0.as_slice() == other.0.as_slice()
    }
}

impl<T: Eq> Eq for Many<T> {
    ghost laws = { Prim.search (comparing, rules) };
}

/// By the first member that differs; a list comes before those that go on from it.
impl<T: Ord> Ord for Many<T> {
    ghost cmp = { slice_cmp T.cmp };

    ghost total = { lists_total T.total };

    ghost matches_partial_cmp = { λ x y. lists_agrees T.matches_partial_cmp x y };

    ghost matches_eq = { λ x y. lists_ties T.cmp T.matches_eq x y };

    fn cmp(&self, other: &Many<T>) -> Ordering {
        self.0.as_slice().cmp(other.0.as_slice())
    }
}

impl<T: PartialOrd> PartialOrd for Many<T> {
    ghost partial_cmp = { slice_partial_cmp T.partial_cmp };

    ghost laws = { lists_po T.PartialOrd.laws };

    fn partial_cmp(&self, other: &Many<T>) -> Option<Ordering> {
        self.0.as_slice().partial_cmp(other.0.as_slice())
    }
}
