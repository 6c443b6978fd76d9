//! Where what a session is to be told makes its queue greater than its limit, one error takes the
//! place of all.
ghost use Rattle.std.specs.Prelude.{◌≡◌, ◌≢◌, ◌||◌, ℕ, List, None, Some, false, IfOk, OnOk, is_some, map};
ghost use Rattle.std.specs.BTreeMap.{get};
ghost use Rattle.std.specs.List.{AllByRecursion};
ghost use Rattle.std.specs.Ordering.{nat_cmp};
ghost use Rattle.ifmap_tellings.specs.declared.tellings.Telling.{Telling};
ghost use Rattle.ifmap_tellings.specs.Tellings.{AreUntoldWithinLimits, AreWide, CanTell, EachTelling, HasSameSessions, IsSized, IsWide, count_where, is_alone, tell_by, tell_if};
ghost use Rattle.ifmap_ident.specs.declared.codes.Code.TheVariants.{PollResultsTooBig};
ghost use Rattle.ifmap_lemmas.specs.Having.{Has};
ghost use Rattle.ifmap_standing.specs.ifmap_machine.Telling.{is_overfull, limit_note, overflow_session};
ghost use Rattle.ifmap_search.specs.declared.results.PollItem.TheVariants as the_item;
ghost use Rattle.ifmap_standing.specs.ifmap_session.Sessions.{IsLive, Session, session_with_serial};
ghost use Rattle.ifmap_standing.specs.declared.standing.Standing.{Standing};

use crate::tellings::{Telling, count_told};
use ifmap_ident::Code;
use ifmap_search::PollItem;
use ifmap_standing::telling::limit_note;
use ifmap_standing::{Sessions, Standing};
use std::alloc::{AllocError as NoMemory, Global};
use std::collections::BTreeMap;

// Where what a session is to be told makes its queue greater than its limit, one error takes the
// place of all; and there is room for what it is to be told. After want of memory, some may be
// done.
pub(crate) fn overflow_all(
    alloc: Global,
    sessions: &mut Sessions,
    standing: &[Standing],
    tellings: &mut BTreeMap<u64, Telling>,
) -> Result<(), NoMemory>
    requires live { AllByRecursion (λ x. IsLive x.serial sessions.old.live) standing.now }
    requires sized { EachTelling (λ n t. IsSized n t sessions.old.live) tellings.old }
    requires wide { AreWide sessions.old.live }
    requires within { AreUntoldWithinLimits tellings.old sessions.old.live }
    // What no subscription is of has room, and is within its limit.
    requires rest { EachTelling (λ n t. ((x : Standing) → Has standing.now x → x.serial ≢ n)
        → CanTell sessions.old n t) tellings.old }
    requires others { (s : Session) → Has sessions.old.live s
        → ((x : Standing) → Has standing.now x → x.serial ≢ s.serial)
        → is_overfull (tell_by tellings.old s) ≡ false }
    ensures told { OnOk result (map (tell_by tellings.new) sessions.old.live
        ≡ map (λ s. overflow_session (tell_by tellings.old s)) sessions.old.live) }
    ensures alone { OnOk result ((s : Session) → Has sessions.old.live s
        → is_alone (get nat_cmp tellings.new s.serial)
        ≡ (is_alone (get nat_cmp tellings.old s.serial) || is_overfull (tell_by tellings.old s))) }
    ensures keys { OnOk result ((n : ℕ) → is_some (get nat_cmp tellings.new n)
        ≡ is_some (get nat_cmp tellings.old n)) }
    ensures can_tell { OnOk result (EachTelling (CanTell sessions.new) tellings.new) }
    ensures sized { OnOk result (EachTelling (λ n t. IsSized n t sessions.new.live)
        tellings.new) }
    ensures same { HasSameSessions sessions.old sessions.new }
{
    sessions.is_table();
    for one in standing {
        overflow_one(alloc, sessions, one.serial, tellings)?;
    }
    Ok(())
}

// The same of one session.
fn overflow_one(
    alloc: Global,
    sessions: &mut Sessions,
    serial: u64,
    tellings: &mut BTreeMap<u64, Telling>,
) -> Result<(), NoMemory>
    requires live { IsLive serial sessions.old.live }
    requires sized { EachTelling (λ n t. IsSized n t sessions.old.live) tellings.old }
    requires wide { AreWide sessions.old.live }
    requires within { AreUntoldWithinLimits tellings.old sessions.old.live }
    ensures told { OnOk result ((s : Session)
        → session_with_serial serial sessions.old.live ≡ Some s
        → tell_by tellings.new s ≡ overflow_session (tell_by tellings.old s)) }
    ensures alone { OnOk result ((s : Session)
        → session_with_serial serial sessions.old.live ≡ Some s
        → is_alone (get nat_cmp tellings.new s.serial)
        ≡ (is_alone (get nat_cmp tellings.old s.serial) || is_overfull (tell_by tellings.old s))) }
    ensures key { OnOk result (is_some (get nat_cmp tellings.new serial)
        ≡ is_some (get nat_cmp tellings.old serial)) }
    ensures others { OnOk result ((n : ℕ) → n ≢ serial
        → get nat_cmp tellings.new n ≡ get nat_cmp tellings.old n) }
    ensures can_tell { OnOk result ((t : Telling) → get nat_cmp tellings.new serial ≡ Some t
        → CanTell sessions.new serial t) }
    ensures sized { OnOk result (EachTelling (λ n t. IsSized n t sessions.new.live)
        tellings.new) }
    ensures same { HasSameSessions sessions.old sessions.new }
{
    let (_size, limit) = sessions.queue_size(serial);
    let count = overflow_where(alloc, limit, serial, tellings)?;
    sessions.queue_room(serial, count)?;
    Ok(())
}

// What is pending of a session whose limit is that, if anything is: where it makes the queue greater
// than the limit, it is one error in place of all. Gives how many items are pending then.
fn overflow_where(
    alloc: Global,
    limit: u32,
    serial: u64,
    tellings: &mut BTreeMap<u64, Telling>,
) -> Result<u64, NoMemory>
    ensures told { OnOk result ((live : List Session) (s : Session)
        → EachTelling (λ n t. IsSized n t live) tellings.old
        → AreUntoldWithinLimits tellings.old live
        → session_with_serial serial live ≡ Some s → s.limit ≡ limit → IsWide limit
        → tell_if (get nat_cmp tellings.new serial) s
        ≡ overflow_session (tell_if (get nat_cmp tellings.old serial) s)) }
    ensures alone { OnOk result ((live : List Session) (s : Session)
        → EachTelling (λ n t. IsSized n t live) tellings.old
        → AreUntoldWithinLimits tellings.old live
        → session_with_serial serial live ≡ Some s → s.limit ≡ limit
        → is_alone (get nat_cmp tellings.new serial) ≡ (is_alone (get nat_cmp tellings.old serial)
        || is_overfull (tell_if (get nat_cmp tellings.old serial) s))) }
    ensures key { OnOk result (is_some (get nat_cmp tellings.new serial)
        ≡ is_some (get nat_cmp tellings.old serial)) }
    ensures others { OnOk result ((n : ℕ) → n ≢ serial
        → get nat_cmp tellings.new n ≡ get nat_cmp tellings.old n) }
    ensures sized { OnOk result ((live : List Session)
        → EachTelling (λ n t. IsSized n t live) tellings.old
        → EachTelling (λ n t. IsSized n t live) tellings.new) }
    ensures count { IfOk result (λ count. count
        ≡ count_where (get nat_cmp tellings.new serial)) }
{
    match tellings.get_mut(&serial) {
        Some(telling) => {
            overflow(alloc, limit, telling)?;
            Ok(count_told(telling))
        }
        None => Ok(0),
    }
}

// Where the size that a telling keeps is greater than the limit, it is one error in place of all.
fn overflow(alloc: Global, limit: u32, telling: &mut Telling) -> Result<(), NoMemory>
    ensures told { OnOk result ((n : ℕ) (live : List Session) (s : Session)
        → IsSized n telling.old live → session_with_serial n live ≡ Some s → s.limit ≡ limit
        → IsWide limit → tell_if (Some telling.new) s
        ≡ overflow_session (tell_if (Some telling.old) s)) }
    ensures alone { OnOk result ((n : ℕ) (live : List Session) (s : Session)
        → IsSized n telling.old live → session_with_serial n live ≡ Some s → s.limit ≡ limit
        → is_alone (Some telling.new)
        ≡ (is_alone (Some telling.old) || is_overfull (tell_if (Some telling.old) s))) }
    ensures sized { OnOk result ((n : ℕ) (live : List Session) → IsSized n telling.old live
        → IsSized n telling.new live) }
{
    match telling {
        Telling::After { size, .. } => {
            if (limit as u64) < *size {
                let error = overflow_item(alloc, *size, limit)?;
                *telling = Telling::Alone(error);
            }
            Ok(())
        }
        Telling::Alone(_) => Ok(()),
    }
}

// The error in place of a queue that has a size greater than its limit. The one error is want of
// memory.
pub(crate) fn overflow_item(alloc: Global, size: u64, limit: u32) -> Result<PollItem, NoMemory>
    ensures { IfOk result (λ item. item
        ≡ the_item.Error None PollResultsTooBig (limit_note size limit)) }
{
    Ok(PollItem::Error {
        name: None,
        code: Code::PollResultsTooBig,
        note: limit_note(alloc, size, limit as u64)?,
    })
}
