//! Numbers that wait, given out level by level.
ghost use Rattle.std.specs.Prelude.{◌≡◌, ℕ, ◌<◌, ◌≤◌, ◌^◌, ◌⊎◌, ◌∷◌, [], All, Contains, IfSome, IfNone, vec_len};

use std::marker::Model;

// A number, and the level at which it is looked at first.
#[derive(Clone, Copy)]
pub(crate) struct Seed {
    pub(crate) level: u32,
    pub(crate) number: u64,
}

impl Model for Seed {
    ghost use Rattle.std.specs.Prelude.{ℕ};

    ghost Value = { ℕ × ℕ };

    ghost view = { λ s. (s.level, s.number) };

    ghost inverse = { λ p. record { level = p.0; number = p.1 } };
}

// Numbers that wait, each at a level, rising by level.
#[derive(Drop)]
pub(crate) struct Seeds {
    items: Vec<Seed>,
    // those before it are out
    taken: usize,
}

impl Model for Seeds {
    ghost use Rattle.std.specs.Prelude.{ℕ, ◌≤◌, drop, List, vec_len};
    ghost use Rattle.std.specs.List.Sorted.{IsNonDecreasingBy};

    ghost Value = { List (ℕ × ℕ) };

    ghost view = { λ s. drop s.taken s.items.items };

    ghost invariant = { λ s. IsNonDecreasingBy (λ p. p.0) s.items.items
        × (s.taken ≤ vec_len s.items) };
}

impl Seeds {
    // These seeds, in order of their levels.
    pub(crate) fn sort_seeds(mut items: Vec<Seed>) -> Seeds
        ensures kept { (s : ℕ × ℕ) → Contains items.items s → Contains result s }
        ensures only { (s : ℕ × ℕ) → Contains result s → Contains items.items s }
    {
        items.sort_unstable_by_key(|s| s.level);
        Seeds { items, taken: 0 }
    }

    // The level of the first seed, which is the least of a seed.
    pub(crate) fn first_level(&self) -> Option<u32>
        ensures none { IfNone result (self.now ≡ []) }
        ensures least { IfSome result (λ level. All (λ s. level ≤ s.0) self.now) }
        ensures greatest { IfSome result (λ level. (floor : ℕ) → All (λ s. floor ≤ s.0) self.now
            → floor ≤ level) }
    {
        if self.taken < self.items.len() {
            Some(self.items[self.taken].level)
        } else {
            None
        }
    }

    // Takes out a seed of the level, which is not above that of any seed.
    pub(crate) fn pop_at(&mut self, level: u32) -> Option<u64>
        ensures some { IfSome result (λ number. self.old ≡ (level, number) ∷ self.new) }
        ensures none { IfNone result (self.new ≡ self.old) }
        ensures above { IfNone result (All (λ s. level ≤ s.0) self.old
            → All (λ s. level < s.0) self.old) }
    {
        if self.taken < self.items.len() && self.items[self.taken].level == level {
            let number = self.items[self.taken].number;
            self.taken += 1;
            Some(number)
        } else {
            None
        }
    }
}

// The least level at which a number waits, where those of `next` wait at `floor`.
pub(crate) fn least_level(floor: u64, next: &Vec<u64>, seeds: &Seeds) -> Option<u32>
    requires fits { 0 < vec_len next.now → floor < 2 ^ 32 }
    requires above { All (λ s. floor ≤ s.0) seeds.now }
    ensures none { IfNone result ((next.now.items ≡ []) × (seeds.now ≡ [])) }
    ensures rises { IfSome result (λ level. floor ≤ level) }
    ensures side { IfSome result (λ level. (next.now.items ≡ []) ⊎ (level ≡ floor)) }
    ensures least { IfSome result (λ level. All (λ s. level ≤ s.0) seeds.now) }
{
    if next.is_empty() {
        seeds.first_level()
    } else {
        Some(floor as u32)
    }
}
