//! The live sessions.
ghost use Rattle.std.specs.Prelude.{◌≡◌, ◌≢◌, ◌↔◌, ℕ, ◌+◌, ◌-◌, ◌^◌, ◌<◌, ◌≤◌, [], ◌∷◌, ◌++◌, filter, length, min, Err, IfNone, IfOk, IfSome, List, None, OnErr, OnOk, Some, option_map, vec_capacity, vec_len};
ghost use Rattle.std.specs.List.{list_any};
ghost use Rattle.ifmap_search.specs.Sizes.{queue_size};
ghost use Rattle.ifmap_session.specs.declared.errors.BeginError.TheVariants as the_error;
ghost use Rattle.ifmap_session.specs.SessionIds.{session_id};
ghost use Rattle.ifmap_session.specs.Sessions.{Changes, ChangesRoom, HasRoomForOne, IsAsBefore, IsLive, IsTable, Session, expired_serials, is_expired, is_named, most_sessions, session_from, session_of_client, session_with_id, session_with_serial, spare_of, with_error, with_item, with_last, without_items, without_name, without_sessions};

use crate::errors::BeginError;
use crate::holders::{Holder, place_of_client};
use crate::ids::{new_id, serial_of};
use crate::last_moments::{NO_MOMENT, is_any_due, set_last_moment};
use crate::openings::{Begun, Opening};
use crate::queues::LiveSession;
use crate::rows::{
    SessionRow, drop_name_at, due_serials, end_at, find_live, overflow_at, place_in, push_at,
    renew_at, reserve_at, take_all_at, widen,
};
use ifmap_elem::{Copied, Equals, Many, Text};
use ifmap_io::Moment;
use ifmap_meta::ClientName;
use ifmap_search::PollItem;
use std::alloc::{AllocError as NoMemory, Global};
use std::marker::Model;

/// How many sessions may live.
pub const MOST_SESSIONS: usize = 10_000;

/// The live sessions. An id leads to its session by the serial that it begins with, a client by a
/// list in the order of the clients' names; both are found by halving. The oldest last moment is
/// known at once.
#[derive(Drop)]
pub struct Sessions {
    counter: u64,
    rows: Vec<SessionRow>,
    holders: Vec<Holder>,
    // How many rows the last moments are for, and the tree of the last moments by row.
    width: usize,
    last_moments: Vec<u64>,
}

impl Model for Sessions {
    ghost use Rattle.std.specs.Prelude.{◌-◌, min, vec_capacity, vec_len};
    ghost use Rattle.std.specs.Coded.{codes};
    ghost use Rattle.ifmap_search.specs.contracts.results.PollItem as the_poll_item;
    ghost use Rattle.ifmap_session.specs.Rows.{AreTied, live_in, spare_in};
    ghost use Rattle.ifmap_session.specs.Sessions.{SessionTable};

    ghost Value = { SessionTable };

    ghost coded = { Prim.hlevel (codes, the_poll_item.the_row.coded) };

    ghost view = { λ s. record {
      counter = s.counter;
      live = live_in s.rows.items;
      spare = spare_in s.rows.items;
      room = min (min (vec_capacity s.rows) s.width - vec_len s.rows)
          (vec_capacity s.holders - vec_len s.holders);
    } };

    ghost invariant = { λ s. AreTied s.counter s.rows.items s.holders.items s.width
        s.last_moments.items };
}

impl Sessions {
    /// No session yet. It takes no memory.
    pub fn new(alloc: Global) -> Sessions
        ensures counter { result.counter ≡ 0 }
        ensures live { result.live ≡ [] }
    {
        Sessions {
            counter: 0,
            rows: Vec::new(alloc),
            holders: Vec::new(alloc),
            width: 0,
            last_moments: Vec::new(alloc),
        }
    }

    /// How many sessions live, and the serial that was given last. It takes no memory.
    pub fn counts(&self) -> (u64, u64)
        ensures live { result.0 ≡ length self.now.live }
        ensures counter { result.1 ≡ self.now.counter }
    {
        (self.holders.len() as u64, self.counter)
    }

    /// What holds of the live sessions at every moment.
    pub fn is_table(&self)
        ensures { IsTable self.now }
    {
        let _counter = self.counter;
    }

    /// The serial and the client of the live session with that id. It takes no memory.
    pub fn owner(&self, id: &Text) -> Option<(u64, &ClientName)>
        ensures some { IfSome result (λ owner. (s : Session)
            × (session_with_id id.now self.now.live ≡ Some s)
            × (owner.0 ≡ s.serial) × (owner.1.now ≡ s.client)
            × (session_with_serial s.serial self.now.live ≡ Some s)) }
        ensures none { IfNone result (session_with_id id.now self.now.live ≡ None) }
    {
        let rows = &self.rows;
        let serial = serial_of(id.as_str())?;
        let kept = find_live(rows, serial)?;
        if kept.id().equals(id) {
            Some((serial, kept.client()))
        } else {
            None
        }
    }

    /// The serial of the live session of that client. It takes no memory.
    pub fn of_client(&self, client: &ClientName) -> Option<u64>
        ensures serial { result
            ≡ option_map (λ s. s.serial) (session_of_client client.now self.now.live) }
        ensures live { IfSome result (λ serial. IsLive serial self.now.live) }
    {
        let place = place_of_client(&self.holders, client).ok()?;
        Some(self.holders[place].serial)
    }

    /// Begins a session of a client that has none, with an empty queue. `limit` is what the size of
    /// the queue may be in bytes, as `queue_size` counts them; `limit_of` gives one that is within
    /// its range. `moment` is that of the request which begins the session, from which it expires;
    /// any moment will do, an earlier one than those before too. The errors are `TooMany` where
    /// 10,000 sessions are live, `Counted` where fewer are and the counter stands at 2^64 - 1, and
    /// `NoMemory`; after each the sessions and their queues are as before.
    pub fn begin(
        &mut self,
        alloc: Global,
        client: &ClientName,
        random: u128,
        limit: u32,
        moment: Moment,
    ) -> Result<Begun, BeginError>
        requires none { session_of_client client.now self.old.live ≡ None }
        ensures begun { IfOk result (λ begun. begun ≡ record {
          serial = self.old.counter + 1;
          id = session_id (self.old.counter + 1) random;
        }) }
        ensures live { OnOk result (self.new.live ≡ self.old.live ++ record {
          serial = self.old.counter + 1;
          id = session_id (self.old.counter + 1) random;
          client = client.now;
          limit = limit;
          last = moment;
          queue = [];
        } ∷ []) }
        ensures counter { OnOk result (self.new.counter ≡ self.old.counter + 1) }
        ensures others { (n : ℕ) → n ≢ self.old.counter + 1
            → spare_of n self.new.spare ≡ spare_of n self.old.spare }
        ensures err { OnErr result (IsAsBefore self.old self.new) }
        ensures too_many { (result ≡ Err the_error.TooMany)
            ↔ (most_sessions ≤ length self.old.live) }
        ensures counted { (result ≡ Err the_error.Counted)
            ↔ ((length self.old.live < most_sessions) × (self.old.counter ≡ 2 ^ 64 - 1)) }
    {
        if MOST_SESSIONS <= self.holders.len() {
            return Err(BeginError::TooMany);
        }
        if self.counter == u64::MAX {
            return Err(BeginError::Counted);
        }
        match self.prepare(alloc, client, random) {
            Ok(opening) => Ok(self.open(opening, limit, moment)),
            Err(_) => Err(BeginError::NoMemory),
        }
    }

    /// Takes all the memory that the client's next session needs, and changes nothing but the room.
    /// The one error is want of memory, after which too nothing but the room has changed.
    pub fn prepare(
        &mut self,
        alloc: Global,
        client: &ClientName,
        random: u128,
    ) -> Result<Opening, NoMemory>
        ensures serial { IfOk result (λ opening. opening.serial
            ≡ min (self.old.counter + 1) (2 ^ 64 - 1)) }
        ensures id { IfOk result (λ opening. opening.id ≡ session_id opening.serial random) }
        ensures client { IfOk result (λ opening. opening.client ≡ client.now) }
        ensures room { OnOk result (1 ≤ self.new.room) }
        ensures same { IsAsBefore self.old self.new }
    {
        self.make_room(alloc)?;
        let serial = self.counter.saturating_add(1);
        let id = new_id(alloc, serial, random)?;
        Ok(Opening {
            serial,
            told: id.copy(alloc)?,
            id,
            client: client.copy(alloc)?,
            holder: client.copy(alloc)?,
        })
    }

    /// Begins a session that was prepared, with the next serial; `limit` and `moment` are as those
    /// of `begin`. It takes no memory.
    pub fn open(&mut self, opening: Opening, limit: u32, moment: Moment) -> Begun
        requires room { 1 ≤ self.old.room }
        requires none { session_of_client opening.client self.old.live ≡ None }
        requires few { length self.old.live < most_sessions }
        requires counter { self.old.counter < 2 ^ 64 - 1 }
        requires prepared { opening.serial ≡ self.old.counter + 1 }
        ensures begun { result ≡ record { serial = opening.serial; id = opening.id } }
        ensures live { self.new.live ≡ self.old.live ++ session_from opening limit moment ∷ [] }
        ensures counter { self.new.counter ≡ self.old.counter + 1 }
        ensures others { (n : ℕ) → n ≢ opening.serial
            → spare_of n self.new.spare ≡ spare_of n self.old.spare }
    {
        let Opening {
            serial,
            id,
            told,
            client,
            holder,
        } = opening;
        let place = place_of_client(&self.holders, &client).unwrap_err();
        self.holders
            .insert(
                place,
                Holder {
                    client: holder,
                    serial,
                },
            )
            .unwrap();
        set_last_moment(
            &mut self.last_moments,
            self.width,
            self.rows.len(),
            moment.seconds(),
        );
        let kept = LiveSession::new(*self.rows.allocator(), serial, id, client, limit, moment);
        self.rows.push_reserved(SessionRow {
            serial,
            kept: Some(kept),
        });
        self.counter = serial;
        Begun { serial, id: told }
    }

    /// Keeps that moment as that of the last accepted request in a live session, also where it is
    /// an earlier one. It takes no memory.
    pub fn renew(&mut self, serial: u64, moment: Moment)
        requires { IsLive serial self.old.live }
        ensures changes { Changes serial (with_last moment) self.old self.new }
        ensures spare { self.new.spare ≡ self.old.spare }
    {
        let place = place_in(&self.rows, serial);
        renew_at(&mut self.rows, place, moment);
        set_last_moment(&mut self.last_moments, self.width, place, moment.seconds());
    }

    /// Ends a live session. It takes no memory.
    pub fn end(&mut self, serial: u64)
        requires { IsLive serial self.old.live }
        ensures live { self.new.live ≡ without_sessions (serial ∷ []) self.old.live }
        ensures counter { self.new.counter ≡ self.old.counter }
        ensures gone { (client : List ℕ) → option_map
            (λ s. s.serial) (session_of_client client self.old.live) ≡ Some serial
            → session_of_client client self.new.live ≡ None }
        ensures others { (n : ℕ) → n ≢ serial
            → spare_of n self.new.spare ≡ spare_of n self.old.spare }
        ensures room { self.old.room ≤ self.new.room }
    {
        let place = place_in(&self.rows, serial);
        let ended = end_at(&mut self.rows, place);
        let holder = place_of_client(&self.holders, ended.client()).unwrap();
        let _holder = self.holders.remove(holder);
        set_last_moment(&mut self.last_moments, self.width, place, NO_MOMENT);
    }

    /// The serials of the sessions that are expired at that moment, in their order: whose last
    /// request lies at least `ttl` seconds before it. The one error is want of memory.
    pub fn expired(&self, alloc: Global, moment: Moment, ttl: u32) -> Result<Many<u64>, NoMemory>
        ensures { IfOk result (λ serials. serials ≡ expired_serials moment ttl self.now.live) }
    {
        match moment.seconds().checked_sub(ttl as u64) {
            Some(limit) => due_serials(alloc, &self.rows, &self.last_moments, self.width, limit),
            None => Ok(Many(Vec::new(alloc))),
        }
    }

    /// Whether a session is expired at that moment. It looks at the oldest last moment alone, and
    /// takes no memory.
    pub fn any_expired(&self, moment: Moment, ttl: u32) -> bool
        ensures { result ≡ list_any (is_expired moment ttl) self.now.live }
    {
        match moment.seconds().checked_sub(ttl as u64) {
            Some(limit) => is_any_due(&self.last_moments, self.width, limit),
            None => false,
        }
    }

    /// Makes room for `n` items more in the queue of a live session. The one error is want of
    /// memory. Whether it succeeds or not, nothing but that room changes.
    pub fn queue_room(&mut self, serial: u64, n: u64) -> Result<(), NoMemory>
        requires { IsLive serial self.old.live }
        ensures changes { ChangesRoom serial self.old self.new }
        ensures ok { OnOk result (n ≤ spare_of serial self.new.spare) }
        ensures spare { spare_of serial self.old.spare ≤ spare_of serial self.new.spare }
    {
        let place = place_in(&self.rows, serial);
        reserve_at(&mut self.rows, place, n)
    }

    /// Queues an item in a live session, where there is room. It takes no memory.
    pub fn push(&mut self, serial: u64, item: PollItem)
        requires live { IsLive serial self.old.live }
        requires room { 1 ≤ spare_of serial self.old.spare }
        ensures changes { Changes serial (with_item item) self.old self.new }
        ensures spare { spare_of serial self.new.spare + 1 ≡ spare_of serial self.old.spare }
    {
        let place = place_in(&self.rows, serial);
        push_at(&mut self.rows, place, item);
    }

    /// The size of the queue of a live session, at most 2^64 - 1, and its limit, both in bytes:
    /// those of the canonical identifiers and elements of its entries, and 100 for each item. It
    /// takes no memory.
    pub fn queue_size(&self, serial: u64) -> (u64, u32)
        requires { IsLive serial self.now.live }
        ensures { (s : Session) → session_with_serial serial self.now.live ≡ Some s
            → (result.0 ≡ min (queue_size s.queue) (2 ^ 64 - 1)) × (result.1 ≡ s.limit) }
    {
        find_live(&self.rows, serial).unwrap().size()
    }

    /// The size of what is queued in a live session of the subscription of that name, at most
    /// 2^64 - 1, counted as `queue_size` counts it. It takes no memory.
    pub fn size_of_name(&self, serial: u64, name: &Text) -> u64
        requires { IsLive serial self.now.live }
        ensures { (s : Session) → session_with_serial serial self.now.live ≡ Some s
            → result ≡ min (queue_size (filter (is_named name.now) s.queue)) (2 ^ 64 - 1) }
    {
        find_live(&self.rows, serial).unwrap().size_of_name(name)
    }

    /// Queues an item in a live session in place of all that is queued, where there is room for
    /// one, what is queued counted as room. It takes no memory.
    pub fn overflow(&mut self, serial: u64, error: PollItem)
        requires live { IsLive serial self.old.live }
        requires room { HasRoomForOne serial self.old }
        ensures changes { Changes serial (with_error error) self.old self.new }
        ensures spare { (s : Session) → session_with_serial serial self.old.live ≡ Some s
            → spare_of serial self.new.spare + 1
            ≡ spare_of serial self.old.spare + length s.queue }
    {
        let place = place_in(&self.rows, serial);
        overflow_at(&mut self.rows, place, error);
    }

    /// Drops what is queued in a live session of the subscription of that name. It takes no memory.
    pub fn drop_name(&mut self, serial: u64, name: &Text)
        requires { IsLive serial self.old.live }
        ensures changes { Changes serial (without_name name.now) self.old self.new }
        ensures spare { spare_of serial self.old.spare ≤ spare_of serial self.new.spare }
    {
        let place = place_in(&self.rows, serial);
        drop_name_at(&mut self.rows, place, name);
    }

    /// Hands out all that is queued in a live session, whose queue is empty then and has no room.
    /// Nothing is copied, and it takes no memory.
    pub fn take_all(&mut self, serial: u64) -> Many<PollItem>
        requires { IsLive serial self.old.live }
        ensures items { (s : Session) → session_with_serial serial self.old.live ≡ Some s
            → result ≡ s.queue }
        ensures changes { Changes serial without_items self.old self.new }
        ensures spare { spare_of serial self.new.spare ≡ 0 }
    {
        let place = place_in(&self.rows, serial);
        take_all_at(&mut self.rows, place)
    }

    // Makes room for one session more. Only the room changes, also after want of memory, which is
    // the one error.
    fn make_room(&mut self, alloc: Global) -> Result<(), NoMemory>
        ensures same { IsAsBefore self.old self.new }
        ensures room { OnOk result (1 ≤ self.new.room) }
    {
        if self.rows.len() < self.width {
            return reserve_one(&mut self.rows, &mut self.holders);
        }
        let live = self.holders.len();
        let wide = widen(alloc, &mut self.rows, self.width, live)?;
        self.width = wide.width;
        self.last_moments = wide.last_moments;
        reserve_one(&mut self.rows, &mut self.holders)
    }
}

// Makes room for one row and one holder more. The one error is want of memory, which may leave more
// room.
fn reserve_one(rows: &mut Vec<SessionRow>, holders: &mut Vec<Holder>) -> Result<(), NoMemory>
    ensures rows { rows.new.items ≡ rows.old.items }
    ensures holders { holders.new.items ≡ holders.old.items }
    ensures rows_len { vec_len rows.new ≡ vec_len rows.old }
    ensures holders_len { vec_len holders.new ≡ vec_len holders.old }
    ensures rows_more { vec_capacity rows.old ≤ vec_capacity rows.new }
    ensures holders_more { vec_capacity holders.old ≤ vec_capacity holders.new }
    ensures ok { OnOk result ((vec_len rows.new + 1 ≤ vec_capacity rows.new)
        × (vec_len holders.new + 1 ≤ vec_capacity holders.new)) }
{
    rows.reserve(1)?;
    holders.reserve(1)
}
