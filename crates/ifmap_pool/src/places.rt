//! The live numbers in the order of their keys, and the search among them.
ghost use Rattle.std.specs.Prelude.{◌≡◌, ℕ, ◌+◌, ◌-◌, ◌<◌, ◌≤◌, IsSome, length, slice_index_or, vec_len, vec_capacity};
ghost use Rattle.std.specs.List.{insert, remove};
ghost use Rattle.ifmap_pool.specs.Index.{slot_at, IsKeyIndex, IsKeyPlace};

use crate::slots::{HeldKey, slot_of_live};
use std::cmp::Ordering;

// The place of `key` in `order`, or the place where it would stand.
pub(crate) fn place_of<K: Ord>(
    slots: &[Option<HeldKey<K>>],
    order: &[u32],
    key: &K,
) -> Result<usize, usize>
    requires { IsKeyIndex K.cmp (slot_at slots.now) order.now }
    ensures { IsKeyPlace K.cmp (slot_at slots.now) order.now key.now result }
{
    let mut low = 0;
    let mut high = order.len();
    'halving: while low < high {
        let middle = low + (high - low) / 2;
        match slot_of_live(slots, order[middle]).key.cmp(key) {
            Ordering::Less => low = middle + 1,
            Ordering::Greater => high = middle,
            Ordering::Equal => return Ok(middle),
        }
    }
    Err(low)
}

// Puts `number` at `place`. There is room for it.
pub(crate) fn list_number(order: &mut Vec<u32>, place: usize, number: u32)
    requires place { place ≤ vec_len order.old }
    requires room { vec_len order.old < vec_capacity order.old }
    ensures items { order.new.items ≡ insert order.old.items place number }
    ensures len { vec_len order.new ≡ vec_len order.old + 1 }
    ensures capacity { vec_capacity order.new ≡ vec_capacity order.old }
{
    let listed = order.insert(place, number).is_ok();
    prove!(listed);
}

// Takes a live number out of the list.
pub(crate) fn unlist_number<K: Ord>(slots: &[Option<HeldKey<K>>], order: &mut Vec<u32>, number: u32)
    requires indexed { IsKeyIndex K.cmp (slot_at slots.now) order.old.items }
    requires live { IsSome (slot_at slots.now number) }
    ensures items { (place : ℕ) × (place < length order.old.items)
        × (slice_index_or order.old.items place 0 ≡ number)
        × (order.new.items ≡ remove order.old.items place) }
    ensures len { vec_len order.new + 1 ≡ vec_len order.old }
    ensures capacity { vec_capacity order.new ≡ vec_capacity order.old }
{
    match place_of(slots, order, &slot_of_live(slots, number).key) {
        Ok(place) => {
            order.remove(place);
        }
        Err(_) => unreachable!(),
    }
}
