//! What an event has changed and not yet told. News of one change are queued after what is pending:
//! the size of each queue is kept, and where one is greater than its limit, one error takes the place
//! of all.
ghost use Rattle.std.specs.Prelude.{◌≡◌, ◌≢◌, ◌+◌, ◌≤◌, ◌||◌, ℕ, [], None, Some, false, IfOk, IsSome, OnOk, length, map};
ghost use Rattle.std.specs.BTreeMap.{get};
ghost use Rattle.std.specs.List.{AllByRecursion};
ghost use Rattle.std.specs.Ordering.{nat_cmp};
ghost use Rattle.ifmap_tellings.specs.declared.tellings.Telling.{Telling};
ghost use Rattle.ifmap_tellings.specs.declared.tellings.Telling.TheVariants as the_telling;
ghost use Rattle.ifmap_tellings.specs.Tellings.{AloneAreBare, AreWide, CanTell, EachTelling, HasSameSessions, IsSized, SkipsGone, count_told, count_where, flags_since, flags_of_alone, is_alone, items_for, tell_by, tell_if};
ghost use Rattle.ifmap_ident.specs.declared.codes.Code.TheVariants.{PollResultsTooBig};
ghost use Rattle.ifmap_lemmas.specs.Having.{Has};
ghost use Rattle.ifmap_standing.specs.ifmap_machine.Telling.{is_overfull, limit_note, overflow_session, tell_session};
ghost use Rattle.ifmap_search.specs.declared.results.PollItem.TheVariants as the_item;
ghost use Rattle.ifmap_standing.specs.ifmap_session.Sessions.{Changes, IsLive, Session, session_with_serial, spare_of};
ghost use Rattle.ifmap_standing.specs.declared.standing.Standing.{Standing};

use crate::flagging::{flag_alone, flag_too_big};
use crate::overflowing::{overflow_all, overflow_item};
use crate::queueing::queue_all;
use ifmap_elem::Many;
use ifmap_search::PollItem;
use ifmap_standing::{News, Sessions, Standing};
use std::alloc::{AllocError as NoMemory, Global};
use std::collections::BTreeMap;

/// What a session is to be told.
#[derive(Drop)]
pub enum Telling {
    /// These, after what is queued; with the size of both.
    After { items: Many<PollItem>, size: u64 },
    /// One error, in place of all.
    Alone(PollItem),
}

/// What an event has changed and not yet told.
#[derive(Drop)]
pub struct Pending {
    /// Which subscriptions stand no longer, by their places.
    pub gone: Vec<bool>,
    /// What sessions are to be told, by their serials.
    pub tellings: BTreeMap<u64, Telling>,
}

/// Nothing is pending yet: so many subscriptions stand, and all of them go on to. The one error is
/// want of memory.
pub fn nothing_pending(alloc: Global, count: usize) -> Result<Pending, NoMemory>
    ensures gone { IfOk result (λ pending. AllByRecursion (λ flag. flag ≡ false)
        pending.gone.items) }
    ensures flags { IfOk result (λ pending. length pending.gone.items ≡ count) }
    ensures none { IfOk result (λ pending. pending.tellings.entries ≡ []) }
{
    Ok(Pending {
        gone: Vec::from_elem(alloc, false, count)?,
        tellings: BTreeMap::new(alloc),
    })
}

/// Queues the news of one change, one for each subscription that stands, for the sessions whose
/// subscriptions they are of, and makes room for them in the queues. Subscriptions whose results
/// are too big are gone from then on. Where what a session is to be told makes its queue greater
/// than its limit, one error takes the place of all, and its subscriptions are gone too. The one
/// error is want of memory, after which some of this may be pending; the sessions are as before but
/// for room.
pub fn queue_news(
    alloc: Global,
    sessions: &mut Sessions,
    standing: &[Standing],
    news: Many<News>,
    pending: &mut Pending,
) -> Result<(), NoMemory>
    requires long { length news ≡ length standing.now }
    requires flags { length pending.old.gone.items ≡ length standing.now }
    requires live { AllByRecursion (λ x. IsLive x.serial sessions.old.live) standing.now }
    requires wide { AreWide sessions.old.live }
    requires within { AllByRecursion (λ s. is_overfull s ≡ false)
        (map (tell_by pending.old.tellings) sessions.old.live) }
    requires can_tell { EachTelling (CanTell sessions.old) pending.old.tellings }
    requires sized { EachTelling (λ n t. IsSized n t sessions.old.live) pending.old.tellings }
    requires alone { AloneAreBare pending.old.tellings pending.old.gone.items standing.now }
    requires skipped { SkipsGone pending.old.gone.items news }
    ensures told { OnOk result (map (tell_by pending.new.tellings) sessions.old.live
        ≡ map (λ s. overflow_session (tell_session (items_for s.serial standing.now news)
        (tell_by pending.old.tellings s))) sessions.old.live) }
    ensures gone { OnOk result (pending.new.gone.items ≡ flags_of_alone pending.new.tellings
        (flags_since pending.old.gone.items news) standing.now) }
    // Who would have a queue greater than its limit is told one error in place of all, and nobody
    // else who was not told one before.
    ensures overrun { OnOk result ((s : Session) → Has sessions.old.live s
        → is_alone (get nat_cmp pending.new.tellings s.serial)
        ≡ (is_alone (get nat_cmp pending.old.tellings s.serial)
        || is_overfull (tell_session (items_for s.serial standing.now news)
        (tell_by pending.old.tellings s)))) }
    ensures brought { OnOk result ((n : ℕ) → IsSome (get nat_cmp pending.new.tellings n)
        → get nat_cmp pending.old.tellings n ≡ None
        → items_for n standing.now news ≢ []) }
    ensures can_tell { OnOk result (EachTelling (CanTell sessions.new) pending.new.tellings) }
    ensures sized { OnOk result (EachTelling (λ n t. IsSized n t sessions.new.live)
        pending.new.tellings) }
    ensures alone { OnOk result (AloneAreBare pending.new.tellings pending.new.gone.items
        standing.now) }
    ensures same { HasSameSessions sessions.old sessions.new }
{
    flag_too_big(news.as_slice(), &mut pending.gone);
    queue_all(alloc, sessions, standing, news, &mut pending.tellings)?;
    overflow_all(alloc, sessions, standing, &mut pending.tellings)?;
    flag_alone(standing, &pending.tellings, &mut pending.gone);
    Ok(())
}

/// How many items a telling puts into a queue. It takes no memory.
pub fn count_told(telling: &Telling) -> u64
    ensures { result ≡ count_told telling.now }
{
    match telling {
        Telling::After { items, .. } => items.len() as u64,
        Telling::Alone(_) => 1,
    }
}

/// A session is to be told one error in place of all, and has room for it: its queue would have that
/// size. The one error is want of memory.
pub fn tell_alone(
    alloc: Global,
    sessions: &mut Sessions,
    tellings: &mut BTreeMap<u64, Telling>,
    serial: u64,
    size: u64,
) -> Result<(), NoMemory>
    requires live { IsLive serial sessions.old.live }
    ensures told { OnOk result ((s : Session)
        → session_with_serial serial sessions.old.live ≡ Some s
        → get nat_cmp tellings.new serial ≡ Some (the_telling.Alone
        (the_item.Error None PollResultsTooBig (limit_note size s.limit)))) }
    ensures others { OnOk result ((n : ℕ) → n ≢ serial
        → get nat_cmp tellings.new n ≡ get nat_cmp tellings.old n) }
    ensures room { OnOk result (1 ≤ spare_of serial sessions.new.spare) }
    ensures same { HasSameSessions sessions.old sessions.new }
{
    let (_size, limit) = sessions.queue_size(serial);
    let error = overflow_item(alloc, size, limit)?;
    sessions.queue_room(serial, 1)?;
    tellings.insert(serial, Telling::Alone(error))?;
    Ok(())
}

/// Queues what sessions are to be told. It takes no memory.
pub fn tell_sessions(sessions: &mut Sessions, tellings: BTreeMap<u64, Telling>)
    requires { EachTelling (CanTell sessions.old) tellings }
    ensures live { sessions.new.live ≡ map (tell_by tellings) sessions.old.live }
    ensures counter { sessions.new.counter ≡ sessions.old.counter }
    ensures spare { (n : ℕ) → spare_of n sessions.old.spare
        ≤ spare_of n sessions.new.spare + count_where (get nat_cmp tellings n) }
    ensures room { sessions.old.room ≤ sessions.new.room }
{
    let mut left = tellings;
    while let Some((serial, telling)) = left.pop_first() {
        tell_one(sessions, serial, telling);
    }
}

// Queues what one session is to be told. It takes no memory.
fn tell_one(sessions: &mut Sessions, serial: u64, telling: Telling)
    requires { CanTell sessions.old serial telling }
    ensures changes { Changes serial (tell_if (Some telling)) sessions.old sessions.new }
    ensures spare { spare_of serial sessions.old.spare
        ≤ spare_of serial sessions.new.spare + count_told telling }
{
    match telling {
        Telling::After { items, .. } => push_all(sessions, serial, items),
        Telling::Alone(error) => sessions.overflow(serial, error),
    }
}

// Queues items in a session, where there is room. It takes no memory.
fn push_all(sessions: &mut Sessions, serial: u64, items: Many<PollItem>)
    requires live { IsLive serial sessions.old.live }
    requires room { length items ≤ spare_of serial sessions.old.spare }
    ensures changes { Changes serial (tell_session items) sessions.old sessions.new }
    ensures spare { spare_of serial sessions.new.spare + length items
        ≡ spare_of serial sessions.old.spare }
{
    for item in items.0 {
        sessions.push(serial, item);
    }
}
