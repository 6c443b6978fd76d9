//! Pools, beside a plain map.
ghost use Rattle.std.specs.Prelude.{ℕ, ◌≤◌};
ghost use Rattle.ifmap_pool.specs.Holdings.{holds_at};

use ifmap_pool::Pool;
use std::alloc::{AllocError as NoMemory, Global};
use std::process::Abort;
use std::test::Fail;

// A pool in which no number is held more than `most` times.
#[derive(Drop)]
struct Counted<K: Ord> {
    pool: Pool<K>,
    most: u64,
    ghost few: { (number : ℕ) → holds_at pool number ≤ most },
}

impl<K: Ord + Drop> Counted<K> {
    fn new(alloc: Global) -> Self {
        Counted {
            pool: Pool::new(alloc),
            most: 0,
        }
    }

    fn hold(&mut self, key: K) -> Result<u64, NoMemory> {
        if self.most == u64::MAX {
            return Err(NoMemory);
        }
        self.pool.reserve(1)?;
        let number = self.pool.hold(key);
        self.most += 1;
        Ok(number)
    }

    fn release(&mut self, key: &K) -> bool {
        match self.pool.number_of(key) {
            Some(number) => {
                self.pool.release(number);
                true
            }
            None => false,
        }
    }
}

#[test]
fn a_number_is_kept_until_its_last_hold(rt: HostRuntime) -> Result<(), Fail> {
    let mut pool: Pool<u64> = Pool::new(rt.alloc());
    pool.reserve(2)?;
    let first = pool.hold(7);
    let second = pool.hold(7);
    assert_eq!(rt; first, second);
    pool.release(first);
    assert_eq!(rt; pool.key_of(first).copied(), Some(7));
    pool.release(first);
    assert!(rt; pool.key_of(first).is_none());
    assert!(rt; pool.number_of(&7).is_none());
    Ok(())
}

// Holds a text: whether its number is that of this text.
fn holds_text(alloc: Global, counted: &mut Counted<String>, name: &str) -> Result<bool, NoMemory> {
    let number = counted.hold(String::from_str(alloc, name)?)?;
    Ok(
        counted
            .pool
            .key_of(number)
            .is_some_and(|key| key.as_str() == name),
    )
}

// Releases a text: whether it was held, and has no number then.
fn releases_text(
    alloc: Global,
    counted: &mut Counted<String>,
    name: &str,
) -> Result<bool, NoMemory> {
    let key = String::from_str(alloc, name)?;
    Ok(counted.release(&key) && counted.pool.number_of(&key).is_none())
}

#[test]
fn texts_are_found_whatever_their_order(rt: HostRuntime) -> Result<(), Fail> {
    let alloc = rt.alloc();
    let mut counted: Counted<String> = Counted::new(alloc);
    let names = ["mac", "ip", "device", "access request", "identity"];
    for name in names {
        assert!(rt; holds_text(alloc, &mut counted, name)?, "{name}");
    }
    for name in names {
        assert!(rt; releases_text(alloc, &mut counted, name)?, "{name}");
    }
    Ok(())
}

// Holds or releases a key, and counts the same: whether the answers are those of the counts.
fn hold_or_release(
    counted: &mut Counted<u64>,
    counts: &mut [u64],
    step: u64,
) -> Result<bool, NoMemory> {
    let key = step % 1000 / 3 * 25 % 61;
    let Some(count) = counts.get_mut(key as usize) else {
        return Ok(false);
    };
    if step % 7 < 4 {
        *count = count.saturating_add(1);
        let number = counted.hold(key)?;
        Ok(number < 61 && counted.pool.key_of(number).copied() == Some(key))
    } else {
        let held = *count > 0;
        *count = count.saturating_sub(1);
        Ok(counted.release(&key) == held)
    }
}

// Whether just the keys with a count have a number.
fn agrees_with_counts(counted: &Counted<u64>, counts: &[u64]) -> bool {
    for key in 0..counts.len() {
        if counted.pool.number_of(&(key as u64)).is_some() != (counts[key] > 0) {
            return false;
        }
    }
    true
}

// Releases each key as often as it was counted, and once more.
fn release_all(counted: &mut Counted<u64>, counts: &[u64]) -> bool {
    for key in 0..counts.len() {
        for _ in 0..counts[key] {
            if !counted.release(&(key as u64)) {
                return false;
            }
        }
        if counted.release(&(key as u64)) {
            return false;
        }
    }
    true
}

#[test]
fn a_thousand_holds_and_releases_agree_with_plain_counts(rt: HostRuntime) -> Result<(), Fail> {
    let mut counted: Counted<u64> = Counted::new(rt.alloc());
    let mut counts = vec![in rt.alloc(); 0u64; 61]?;
    for step in 0..1000u64 {
        assert!(rt;
            hold_or_release(&mut counted, &mut counts, step)?,
            "at {step}"
        );
        assert!(rt; agrees_with_counts(&counted, &counts), "at {step}");
    }
    assert!(rt; release_all(&mut counted, &counts));
    Ok(())
}
