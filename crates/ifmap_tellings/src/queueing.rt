//! News are queued after what is pending, with their sizes.
ghost use Rattle.std.specs.Prelude.{◌≡◌, ◌≢◌, ◌<◌, ◌+◌, ◌++◌, ◌^◌, ◌-◌, ℕ, [], List, None, Some, true, false, IfOk, OnOk, length};
ghost use Rattle.std.specs.BTreeMap.{get};
ghost use Rattle.std.specs.List.{AllByRecursion};
ghost use Rattle.std.specs.Ordering.{nat_cmp};
ghost use Rattle.ifmap_tellings.specs.declared.tellings.Telling.{Telling};
ghost use Rattle.ifmap_tellings.specs.Tellings.{AddsTo, AreUntoldWithinLimits, EachTelling, IsSized, LeaveAlone, is_alone, items_for};
ghost use Rattle.ifmap_lemmas.specs.Having.{Has};
ghost use Rattle.ifmap_standing.specs.ifmap_machine.Telling.{is_overfull};
ghost use Rattle.ifmap_search.specs.Sizes.{poll_size, queue_size};
ghost use Rattle.ifmap_standing.specs.ifmap_session.Sessions.{IsLive, Session, session_with_serial};
ghost use Rattle.ifmap_standing.specs.declared.standing.Standing.{Standing};

use crate::tellings::Telling;
use ifmap_elem::Many;
use ifmap_search::{PollItem, poll_size};
use ifmap_standing::{News, Sessions, Standing};
use std::alloc::{AllocError as NoMemory, Global};
use std::collections::BTreeMap;

// The items of each subscription's news are queued for its session, after what is pending. After
// want of memory, some may be.
pub(crate) fn queue_all(
    alloc: Global,
    sessions: &Sessions,
    standing: &[Standing],
    news: Many<News>,
    tellings: &mut BTreeMap<u64, Telling>,
) -> Result<(), NoMemory>
    requires long { length news ≡ length standing.now }
    requires live { AllByRecursion (λ x. IsLive x.serial sessions.now.live) standing.now }
    requires within { AreUntoldWithinLimits tellings.old sessions.now.live }
    requires sized { EachTelling (λ n t. IsSized n t sessions.now.live) tellings.old }
    requires alone { LeaveAlone tellings.old standing.now news }
    ensures added { OnOk result ((n : ℕ) → AddsTo (items_for n standing.now news)
        (get nat_cmp tellings.old n) (get nat_cmp tellings.new n)) }
    ensures others { OnOk result ((n : ℕ) → ((x : Standing) → Has standing.now x → x.serial ≢ n)
        → get nat_cmp tellings.new n ≡ get nat_cmp tellings.old n) }
    ensures sized { OnOk result (EachTelling (λ n t. IsSized n t sessions.now.live)
        tellings.new) }
{
    let mut at = 0;
    for one in news.0 {
        let News { items, .. } = one;
        queue_items(alloc, sessions, tellings, standing[at].serial, items)?;
        at += 1;
    }
    Ok(())
}

// Items are queued for a session after what is pending of it.
fn queue_items(
    alloc: Global,
    sessions: &Sessions,
    tellings: &mut BTreeMap<u64, Telling>,
    serial: u64,
    items: Many<PollItem>,
) -> Result<(), NoMemory>
    requires live { IsLive serial sessions.now.live }
    requires within { AreUntoldWithinLimits tellings.old sessions.now.live }
    requires sized { EachTelling (λ n t. IsSized n t sessions.now.live) tellings.old }
    requires alone { is_alone (get nat_cmp tellings.old serial) ≡ true → items ≡ [] }
    ensures added { OnOk result (AddsTo items (get nat_cmp tellings.old serial)
        (get nat_cmp tellings.new serial)) }
    ensures others { OnOk result ((n : ℕ) → n ≢ serial
        → get nat_cmp tellings.new n ≡ get nat_cmp tellings.old n) }
    ensures sized { OnOk result (EachTelling (λ n t. IsSized n t sessions.now.live)
        tellings.new) }
{
    if items.is_empty() {
        return Ok(());
    }
    match tellings.get_mut(&serial) {
        Some(telling) => {
            add_items(telling, items)?;
            Ok(())
        }
        None => {
            begin_telling(alloc, sessions, tellings, serial, items)?;
            Ok(())
        }
    }
}

// Items are queued for a session of which nothing is pending.
fn begin_telling(
    alloc: Global,
    sessions: &Sessions,
    tellings: &mut BTreeMap<u64, Telling>,
    serial: u64,
    items: Many<PollItem>,
) -> Result<(), NoMemory>
    requires live { IsLive serial sessions.now.live }
    requires within { (s : Session) → session_with_serial serial sessions.now.live ≡ Some s
        → is_overfull s ≡ false }
    requires some { items ≢ [] }
    ensures added { OnOk result (AddsTo items None (get nat_cmp tellings.new serial)) }
    ensures others { OnOk result ((n : ℕ) → n ≢ serial
        → get nat_cmp tellings.new n ≡ get nat_cmp tellings.old n) }
    ensures sized { OnOk result ((t : Telling) → get nat_cmp tellings.new serial ≡ Some t
        → IsSized serial t sessions.now.live) }
{
    let (size, _limit) = sessions.queue_size(serial);
    let mut telling = Telling::After {
        items: Many::new(alloc),
        size,
    };
    add_items(&mut telling, items)?;
    tellings.insert(serial, telling)?;
    Ok(())
}

// More items after those of a telling, with their sizes. After want of memory, some may be there.
fn add_items(telling: &mut Telling, items: Many<PollItem>) -> Result<(), NoMemory>
    requires { is_alone (Some telling.old) ≡ true → items ≡ [] }
    ensures added { OnOk result (AddsTo items (Some telling.old) (Some telling.new)) }
    ensures sized { OnOk result ((n : ℕ) (live : List Session) → IsSized n telling.old live
        → IsSized n telling.new live) }
{
    match telling {
        Telling::After { items: all, size } => {
            add_each(all, size, items)?;
            Ok(())
        }
        Telling::Alone(_) => Ok(()),
    }
}

// More items after others, and the size of all.
fn add_each(all: &mut Many<PollItem>, size: &mut u64, items: Many<PollItem>) -> Result<(), NoMemory>
    ensures items { OnOk result (all.new ≡ all.old ++ items) }
    ensures size { OnOk result (size.new ≡ size.old + queue_size items) }
    ensures small { OnOk result (size.old < 2 ^ 64 - 1 → size.new < 2 ^ 64 - 1) }
{
    for item in items.0 {
        *size = add_size(*size, &item)?;
        all.push(item)?;
    }
    Ok(())
}

// A size with that of one more item. Sizes that reach 2^64 - 1 are more than memory holds.
fn add_size(size: u64, item: &PollItem) -> Result<u64, NoMemory>
    ensures sum { IfOk result (λ sum. sum ≡ size + poll_size item.now) }
    ensures small { IfOk result (λ sum. sum < 2 ^ 64 - 1) }
{
    let sum = size as u128 + poll_size(item) as u128;
    if (u64::MAX as u128) <= sum {
        return Err(NoMemory);
    }
    Ok(sum as u64)
}
