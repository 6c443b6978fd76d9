//! The pool: numbers that stand for keys.
ghost use Rattle.std.specs.Prelude.{◌≡◌, ◌≢◌, ◌↔◌, ◌⊎◌, ℕ, ◌+◌, ◌-◌, ◌<◌, ◌≤◌, ◌^◌, IsSome, IsOk, IfSome, IfNone, OnOk, OnErr, max, option_copied};
ghost use Rattle.std.specs.FinMap.{empty, len};
ghost use Rattle.ifmap_pool.specs.Holdings.{entry_at, key_at, holds_at, TakesNumber, HoldsAgain, LetsGo, Frees, Names, IsPresent, IsAbsent, IsPool, IsHeld, once, HoldsOne, LetsOneGo};

use crate::places::{list_number, place_of, unlist_number};
use crate::slots::{HeldKey, empty_slot, fill_slot, find_held, set_holds, slot_of_live};
use std::alloc::{AllocError as NoMemory, Global};
use std::marker::Model;

// Most keys that a pool has room for: numbers are kept in four bytes.
const MOST_KEYS: usize = 4294967296;

/// Keys that are held, each under a number of its own.
///
/// A key that is held has one number, and a number one key, until the last hold is let go. Keys are
/// one where their order says so. Each number is below `limit`, which rises only by what `reserve`
/// is asked for, so that a table by number is no longer than that. A lookup by key compares a number
/// of keys that is a logarithm of how many are held; a lookup by number compares none.
#[derive(Drop)]
pub struct Pool<K: Ord> {
    // The keys with their counts, by number.
    slots: Vec<Option<HeldKey<K>>>,
    // The numbers of the empty slots.
    free: Vec<u32>,
    // The live numbers, in the order of their keys.
    order: Vec<u32>,
    // How many keys there is room for; each list holds that many with no more memory.
    limit: usize,
}

impl<K: Ord> Model for Pool<K> {
    ghost use Rattle.std.specs.Prelude.{◌≡◌, ◌-◌, ◌≤◌, ◌^◌, vec_len, vec_capacity};
    ghost use Rattle.ifmap_pool.specs.Holdings.{Holdings, holdings_code};

    ghost Value = { Holdings K };

    ghost coded = { holdings_code K.code };

    ghost use Rattle.ifmap_pool.specs.Index.{live_keys, IsKept};

    ghost view = { λ pool. record {
      live = live_keys pool.slots.items;
      spare = pool.limit - vec_len pool.order;
      limit = pool.limit;
    } };

    ghost invariant = { λ pool. IsKept K.cmp pool.slots.items pool.free.items pool.order.items
        (vec_len pool.order) pool.limit
        × (pool.limit ≤ vec_capacity pool.slots)
        × (pool.limit ≤ vec_capacity pool.free)
        × (pool.limit ≤ vec_capacity pool.order)
        × (pool.limit ≤ 2 ^ 32) };
}

impl<K: Ord> Pool<K> {
    /// No key and no room. It takes no memory.
    pub fn new(alloc: Global) -> Pool<K>
        ensures live { result.live ≡ empty }
        ensures none { (number : ℕ) → holds_at result number ≡ 0 }
        ensures spare { result.spare ≡ 0 }
        ensures limit { result.limit ≡ 0 }
    {
        Pool {
            slots: Vec::new(alloc),
            free: Vec::new(alloc),
            order: Vec::new(alloc),
            limit: 0,
        }
    }

    /// The number of the key, if it is held. It takes no memory.
    pub fn number_of(&self, key: &K) -> Option<u64>
        ensures found { IfSome result (λ number. Names K.cmp self.now number key.now) }
        ensures absent { IfNone result (IsAbsent K.cmp self.now key.now) }
        ensures only { (number : ℕ) → Names K.cmp self.now number key.now → result ≡ Some number }
        ensures whole { IsPool K.cmp self.now }
    {
        match place_of(&self.slots, &self.order, key) {
            Ok(place) => Some(u64::from(self.order[place])),
            Err(_) => None,
        }
    }

    /// The key of the number, if it is live. It takes no memory.
    pub fn key_of(&self, number: u64) -> Option<&K>
        ensures key { option_copied result ≡ key_at self.now number }
        ensures held { IsSome result ↔ (0 < holds_at self.now number) }
        ensures whole { IsPool K.cmp self.now }
    {
        match find_held(&self.slots, number) {
            Some(held) => Some(&held.key),
            None => None,
        }
    }

    /// How many keys are held.
    pub fn len(&self) -> u64
        ensures { result ≡ len self.now.live }
    {
        self.order.len() as u64
    }

    /// A number that all live numbers are below: the most keys that were held or had room at once.
    pub fn limit(&self) -> u64
        ensures limit { result ≡ self.now.limit }
        ensures whole { IsPool K.cmp self.now }
    {
        self.limit as u64
    }

    /// Makes room for `n` new keys. The only error is want of memory, which does not come where there
    /// is that room already, and which leaves the keys and the room as before. A pool has room for
    /// 2^32 keys at most.
    pub fn reserve(&mut self, n: u64) -> Result<(), NoMemory>
        ensures room { OnOk result (self.new.spare ≡ max self.old.spare n) }
        ensures live { self.new.live ≡ self.old.live }
        ensures spare { self.old.spare ≤ self.new.spare }
        ensures limit { self.new.limit + self.old.spare ≡ self.old.limit + self.new.spare }
        ensures err { OnErr result (self.new ≡ self.old) }
        ensures succeeds { n ≤ self.old.spare → IsOk result }
        ensures whole { IsPool K.cmp self.new }
    {
        let len = self.order.len();
        if n as usize <= self.limit - len {
            return Ok(());
        }
        if n as usize > MOST_KEYS - len {
            return Err(NoMemory);
        }
        let wanted = len + n as usize;
        self.slots.reserve(wanted.saturating_sub(self.slots.len()))?;
        self.free.reserve(wanted.saturating_sub(self.free.len()))?;
        self.order.reserve(n as usize)?;
        self.limit = wanted;
        Ok(())
    }

    /// Holds the key once more, and gives its number. A key that is not held yet moves in; of one that
    /// is, the pool keeps the key that it has. It takes no memory. It needs room for a key that is not
    /// held; one that is must be held fewer than 2^64 - 1 times.
    pub fn hold(&mut self, key: K) -> u64
    where
        K: Drop,
        requires room { (0 < self.old.spare) ⊎ IsPresent K.cmp self.old key }
        requires few { (number : ℕ) → Names K.cmp self.old number key
            → holds_at self.old number < 2 ^ 64 - 1 }
        ensures named { Names K.cmp self.new result key }
        ensures present { (number : ℕ) → Names K.cmp self.old number key
            → (result ≡ number) × HoldsAgain self.old self.new number }
        ensures absent { IsAbsent K.cmp self.old key → TakesNumber self.old self.new result key }
        ensures counted { holds_at self.new result ≡ holds_at self.old result + 1 }
        ensures others { (other : ℕ) → other ≢ result
            → entry_at self.new other ≡ entry_at self.old other }

        // What two holds in a row need.
        ensures kept { (number : ℕ) (other : K) → Names K.cmp self.old number other
            → Names K.cmp self.new number other }
        ensures spare { self.old.spare ≤ self.new.spare + 1 }
        ensures below { (number : ℕ) → holds_at self.new number ≤ holds_at self.old number + 1 }
        ensures limit { self.new.limit ≡ self.old.limit }

        // The same by keys.
        ensures held { (other : K) (count : ℕ) → IsHeld K.cmp self.old other count
            → IsHeld K.cmp self.new other (count + once K.cmp key other) }
        ensures whole { IsPool K.cmp self.new }
    {
        self.hold_one(key)
    }

    // Holds the key once more, whether it has a number or not.
    fn hold_one(&mut self, key: K) -> u64
    where
        K: Drop,
        requires room { (0 < self.old.spare) ⊎ IsPresent K.cmp self.old key }
        requires few { (number : ℕ) → Names K.cmp self.old number key
            → holds_at self.old number < 2 ^ 64 - 1 }
        ensures holds { HoldsOne K.cmp self.old self.new result key }
        ensures before { IsPool K.cmp self.old }
        ensures whole { IsPool K.cmp self.new }
    {
        match place_of(&self.slots, &self.order, &key) {
            Ok(place) => {
                let number = self.order[place];
                let holds = slot_of_live(&self.slots, number).holds;
                set_holds(&mut self.slots, number, holds + 1);
                u64::from(number)
            }
            Err(place) => {
                let number = fill_slot(&mut self.slots, &mut self.free, HeldKey { key, holds: 1 });
                list_number(&mut self.order, place, number);
                u64::from(number)
            }
        }
    }

    /// Lets go of one hold. With the last hold the number is free, and its key is dropped. It takes no
    /// memory, and needs that the number is live.
    pub fn release(&mut self, number: u64)
    where
        K: Drop,
        requires { IsSome (entry_at self.old number) }
        ensures kept { LetsGo self.old self.new number }
        ensures last { holds_at self.old number ≡ 1 → Frees self.old self.new number }
        ensures counted { holds_at self.new number + 1 ≡ holds_at self.old number }
        ensures others { (other : ℕ) → other ≢ number
            → entry_at self.new other ≡ entry_at self.old other }
        ensures spare { self.old.spare ≤ self.new.spare }
        ensures limit { self.new.limit ≡ self.old.limit }

        // The same by keys.
        ensures held { (key other : K) (count : ℕ) → Names K.cmp self.old number key
            → IsHeld K.cmp self.old other count
            → IsHeld K.cmp self.new other (count - once K.cmp key other) }
        ensures whole { IsPool K.cmp self.new }
    {
        self.release_one(number);
    }

    // Lets go of one hold, whether it is the last or not.
    fn release_one(&mut self, number: u64)
    where
        K: Drop,
        requires { IsSome (entry_at self.old number) }
        ensures goes { LetsOneGo self.old self.new number }
        ensures before { IsPool K.cmp self.old }
        ensures whole { IsPool K.cmp self.new }
    {
        let is_below = number < self.limit as u64;
        prove!(is_below);
        let number = number as u32;
        let holds = slot_of_live(&self.slots, number).holds;
        if holds > 1 {
            set_holds(&mut self.slots, number, holds - 1);
            return;
        }
        unlist_number(&self.slots, &mut self.order, number);
        empty_slot(&mut self.slots, &mut self.free, number);
    }
}
