//! What is so of a name of a session: before a subscribe, and after some of its operations.
ghost use Rattle.std.specs.Prelude.{◌≡◌, Some, false, filter, length, map};
ghost use Rattle.std.specs.List.{AllByRecursion, list_any};
ghost use Rattle.std.specs.List.Sorted.{IsStrictlySortedBy};
ghost use Rattle.ifmap_changes.specs.Between.{IsSoundSoFar, sessions_left, state_now};
ghost use Rattle.ifmap_subscribes.specs.Renamings.{HasExactSizes, IsNameNow, told_so_far};
ghost use Rattle.ifmap_changes.specs.ifmap_tellings.Tellings.{kept_items, tell_by};
ghost use Rattle.ifmap_changes.specs.ifmap_machine.State.{standing_in, standing_order};
ghost use Rattle.ifmap_changes.specs.ifmap_machine.Subscribing.{is_of_name};
ghost use Rattle.ifmap_changes.specs.ifmap_machine.Telling.{is_overfull};
ghost use Rattle.ifmap_search.specs.Sizes.{queue_size};
ghost use Rattle.ifmap_changes.specs.ifmap_session.Sessions.{IsLive, Session, is_named, session_with_serial};
ghost use Rattle.ifmap_changes.specs.ifmap_standing.Standing.{standing_of};

use crate::renamings::place_of_name;
use ifmap_changes::asking::Asking;
use ifmap_changes::parts::Parts;
use ifmap_changes::{Pending, Sessions, Standing, Telling, named_size};
use ifmap_elem::Text;
use ifmap_search::SIZE_BESIDE_ENTRIES;
use std::collections::BTreeMap;

/// What is so of a name: whether its subscription stands, and the size of what there is to tell of it.
#[derive(Clone, Copy)]
pub struct NameNow {
    /// Whether its subscription stands.
    pub stands: bool,
    /// The size of what there is to tell of it.
    pub size: u128,
}

// What is so of a name of a session, before its operations.
pub(crate) fn name_before(
    parts: &Parts,
    pending: &Pending,
    asking: &Asking,
    serial: u64,
    name: &Text,
) -> NameNow
    requires ready { IsSoundSoFar asking.now parts.now pending.now }
    requires live { IsLive serial (sessions_left asking.now parts.now.sessions) }
    ensures { (s : Session)
        → session_with_serial serial (state_now asking.now parts.now pending.now).sessions ≡ Some s
        → IsNameNow serial name.now (told_so_far asking.now parts.now pending.now s) result }
{
    NameNow {
        stands: is_standing(&parts.standing, &pending.gone, serial, name),
        size: told_size(&parts.sessions, &pending.tellings, serial, name),
    }
}

// Whether a subscription of that name of a session stands and is not gone.
fn is_standing(standing: &[Standing], gone: &[bool], serial: u64, name: &Text) -> bool
    requires rising { IsStrictlySortedBy standing_order (map standing_of standing.now) }
    requires flags { length gone.now ≡ length standing.now }
    ensures { result ≡ list_any (is_of_name serial name.now)
        (map standing_of (kept_items gone.now standing.now)) }
{
    match place_of_name(standing, serial, name) {
        Ok(at) => !gone[at],
        Err(_) => false,
    }
}

// The size of what a session is to be told of a name, once it is told what is pending.
fn told_size(
    sessions: &Sessions,
    tellings: &BTreeMap<u64, Telling>,
    serial: u64,
    name: &Text,
) -> u128
    requires sizes { HasExactSizes serial sessions.now.live tellings.now }
    ensures { (s : Session) → session_with_serial serial sessions.now.live ≡ Some s
        → result ≡ queue_size (filter (is_named name.now) (tell_by tellings.now s).queue) }
{
    match tellings.get(&serial) {
        None => queued_size(sessions, serial, name) as u128,
        Some(Telling::After { items, .. }) => {
            let queued = queued_size(sessions, serial, name) as u128;
            queued + named_size(items.as_slice(), name) as u128
        }
        Some(Telling::Alone(_)) => 0,
    }
}

// The size of what is queued in a session of a name.
fn queued_size(sessions: &Sessions, serial: u64, name: &Text) -> u64
    requires live { IsLive serial sessions.now.live }
    requires within { AllByRecursion (λ s. is_overfull s ≡ false) sessions.now.live }
    ensures { (s : Session) → session_with_serial serial sessions.now.live ≡ Some s
        → result ≡ queue_size (filter (is_named name.now) s.queue) }
{
    // That the limit has 32 bits says that no size stops at 2^64 - 1.
    let _whole = sessions.queue_size(serial);
    sessions.size_of_name(serial, name)
}

// The size of what a session is to be told, once it is told what is pending.
pub(crate) fn whole_size(sessions: &Sessions, tellings: &BTreeMap<u64, Telling>, serial: u64) -> u64
    requires sizes { HasExactSizes serial sessions.now.live tellings.now }
    ensures { (s : Session) → session_with_serial serial sessions.now.live ≡ Some s
        → result ≡ queue_size (tell_by tellings.now s).queue }
{
    match tellings.get(&serial) {
        None => sessions.queue_size(serial).0,
        Some(Telling::After { size, .. }) => *size,
        Some(Telling::Alone(_)) => SIZE_BESIDE_ENTRIES,
    }
}

// How many subscriptions of a session stand and are not gone.
pub(crate) fn count_standing(standing: &[Standing], gone: &[bool], serial: u64) -> usize
    requires flags { length gone.now ≡ length standing.now }
    ensures { result ≡ length (standing_in serial
        (map standing_of (kept_items gone.now standing.now))) }
{
    let mut count = 0;
    for at in 0..standing.len() {
        if standing[at].serial == serial && !gone[at] {
            count += 1;
        }
    }
    count
}
