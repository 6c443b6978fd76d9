//! Sessions in the order of their serials. A session that ends leaves an empty row, so that no
//! other moves.
ghost use Rattle.std.specs.Prelude.{◌≡◌, ℕ, ◌+◌, ◌-◌, ◌*◌, ◌<◌, ◌≤◌, IfOk, MatchOption, None, OnErr, OnOk, Some, filter, is_some, length, map, slice_get, slice_set, vec_capacity, vec_len};
ghost use Rattle.std.specs.List.{All};
ghost use Rattle.ifmap_session.specs.Rows.{AreOwn, AreLastMoments, CanWiden, ChangesSeat, IsRowOf, IsSeatOf, HasLastMoments, IsTaken, Rewrites, due_rows, live_in, serial_at, last_moment_of};
ghost use Rattle.ifmap_session.specs.Seats.{Seat};
ghost use Rattle.ifmap_session.specs.Sessions.{IsLive, session_with_serial, with_error, with_item, with_last, without_items, without_name};
ghost use Rattle.ifmap_session.specs.LastMoments.{IsTree, node_value, no_moment};

use crate::last_moments::{NO_MOMENT, due_nodes, next_width, set_last_moment};
use crate::queues::LiveSession;
use ifmap_elem::{Many, Text};
use ifmap_io::Moment;
use ifmap_search::PollItem;
use std::alloc::{AllocError as NoMemory, Global};

/// A serial, with its session as long as that is live.
#[derive(Drop)]
pub struct SessionRow {
    pub serial: u64,
    pub kept: Option<LiveSession>,
}

/// Where the session with that serial stands.
pub fn place_of_serial(rows: &[SessionRow], serial: u64) -> Option<usize>
    requires { AreOwn rows.now }
    ensures { IsRowOf serial rows.now result }
{
    let place = rows.binary_search_by_key(&serial, |row| row.serial).ok()?;
    if rows[place].kept.is_some() {
        Some(place)
    } else {
        None
    }
}

/// Where the live session with that serial stands.
pub fn place_in(rows: &[SessionRow], serial: u64) -> usize
    requires own { AreOwn rows.now }
    requires live { IsLive serial (live_in rows.now) }
    ensures { (seat : Seat) × (slice_get rows.now result
        ≡ Some (record { serial = serial; kept = Some seat })) }
{
    place_of_serial(rows, serial).unwrap()
}

/// The session with that serial.
pub fn find_live(rows: &[SessionRow], serial: u64) -> Option<&LiveSession>
    requires { AreOwn rows.now }
    ensures { MatchOption result (session_with_serial serial (live_in rows.now) ≡ None)
        (λ kept. IsSeatOf serial rows.now kept.now) }
{
    let place = place_of_serial(rows, serial)?;
    rows[place].kept.as_ref()
}

/// Keeps that moment as that of the last accepted request in the session of a row.
pub fn renew_at(rows: &mut Vec<SessionRow>, place: usize, moment: Moment)
    requires { IsTaken (λ seat. Unit {0}) rows.old.items place }
    ensures rows { Rewrites place (ChangesSeat (with_last moment) (λ a b. b.spare ≡ a.spare))
        rows.old.items rows.new.items }
    ensures len { vec_len rows.new ≡ vec_len rows.old }
    ensures capacity { vec_capacity rows.new ≡ vec_capacity rows.old }
{
    if let Some(kept) = &mut rows[place].kept {
        kept.renew(moment);
    }
}

/// Makes room for `n` items more in the queue of a row. The one error is want of memory, which
/// leaves all as it was.
pub fn reserve_at(rows: &mut Vec<SessionRow>, place: usize, n: u64) -> Result<(), NoMemory>
    requires { IsTaken (λ seat. Unit {0}) rows.old.items place }
    ensures rows { Rewrites place (ChangesSeat (λ s. s)
        (λ a b. (a.spare ≤ b.spare) × OnOk result (n ≤ b.spare))) rows.old.items rows.new.items }
    ensures len { vec_len rows.new ≡ vec_len rows.old }
    ensures capacity { vec_capacity rows.new ≡ vec_capacity rows.old }
{
    match &mut rows[place].kept {
        Some(kept) => kept.reserve(n),
        None => Ok(()),
    }
}

/// Queues an item in the session of a row.
pub fn push_at(rows: &mut Vec<SessionRow>, place: usize, item: PollItem)
    requires { IsTaken (λ seat. 1 ≤ seat.spare) rows.old.items place }
    ensures rows { Rewrites place (ChangesSeat (with_item item) (λ a b. b.spare + 1 ≡ a.spare))
        rows.old.items rows.new.items }
    ensures len { vec_len rows.new ≡ vec_len rows.old }
    ensures capacity { vec_capacity rows.new ≡ vec_capacity rows.old }
{
    if let Some(kept) = &mut rows[place].kept {
        kept.push(item);
    }
}

/// Queues an item in the session of a row, in place of all.
pub fn overflow_at(rows: &mut Vec<SessionRow>, place: usize, error: PollItem)
    requires { IsTaken (λ seat. 1 ≤ seat.spare + length seat.session.queue) rows.old.items place }
    ensures rows { Rewrites place (ChangesSeat (with_error error)
        (λ a b. b.spare + 1 ≡ a.spare + length a.session.queue)) rows.old.items rows.new.items }
    ensures len { vec_len rows.new ≡ vec_len rows.old }
    ensures capacity { vec_capacity rows.new ≡ vec_capacity rows.old }
{
    if let Some(kept) = &mut rows[place].kept {
        kept.overflow(error);
    }
}

/// Drops what is queued in the session of a row of the subscription of that name.
pub fn drop_name_at(rows: &mut Vec<SessionRow>, place: usize, name: &Text)
    requires { IsTaken (λ seat. Unit {0}) rows.old.items place }
    ensures rows { Rewrites place (ChangesSeat (without_name name.now)
        (λ a b. a.spare ≤ b.spare)) rows.old.items rows.new.items }
    ensures len { vec_len rows.new ≡ vec_len rows.old }
    ensures capacity { vec_capacity rows.new ≡ vec_capacity rows.old }
{
    if let Some(kept) = &mut rows[place].kept {
        kept.drop_name(name);
    }
}

/// Hands out what is queued in the session of a row; the queue is empty then, and has no room.
pub fn take_all_at(rows: &mut Vec<SessionRow>, place: usize) -> Many<PollItem>
    requires { IsTaken (λ seat. Unit {0}) rows.old.items place }
    ensures rows { Rewrites place (ChangesSeat without_items
        (λ a b. (b.spare ≡ 0) × (result ≡ a.session.queue))) rows.old.items rows.new.items }
    ensures len { vec_len rows.new ≡ vec_len rows.old }
    ensures capacity { vec_capacity rows.new ≡ vec_capacity rows.old }
{
    match &mut rows[place].kept {
        Some(kept) => kept.take_all(),
        None => unreachable!(),
    }
}

/// Takes the session of a row out, and leaves the row empty.
pub fn end_at(rows: &mut Vec<SessionRow>, place: usize) -> LiveSession
    requires { IsTaken (λ seat. Unit {0}) rows.old.items place }
    ensures rows { (serial : ℕ) (seat : Seat)
        → slice_get rows.old.items place ≡ Some (record { serial = serial; kept = Some seat })
        → (result ≡ seat) × (rows.new.items ≡ slice_set rows.old.items place
        (record { serial = serial; kept = None })) }
    ensures len { vec_len rows.new ≡ vec_len rows.old }
    ensures capacity { vec_capacity rows.new ≡ vec_capacity rows.old }
{
    rows[place].kept.take().unwrap()
}

/// Last moments for rows.
#[derive(Drop)]
pub struct Wide {
    /// For how many rows they are.
    pub width: usize,
    /// The tree of the last moments by row.
    pub last_moments: Vec<u64>,
}

/// Drops the empty rows, and makes last moments for these and more. The one error is want of memory,
/// which leaves the rows.
pub fn widen(
    alloc: Global,
    rows: &mut Vec<SessionRow>,
    width: usize,
    live: usize,
) -> Result<Wide, NoMemory>
    requires { CanWiden rows.old.items width live }
    ensures items { OnOk result (rows.new.items
        ≡ filter (λ row. is_some row.kept) rows.old.items) }
    ensures err { OnErr result (rows.new.items ≡ rows.old.items) }
    ensures len { vec_len rows.new ≤ vec_len rows.old }
    ensures same { OnErr result (vec_len rows.new ≡ vec_len rows.old) }
    ensures capacity { vec_capacity rows.new ≡ vec_capacity rows.old }
    ensures last_moments { IfOk result (λ w. AreLastMoments rows.new.items w.width
        w.last_moments.items) }
    ensures wide { IfOk result (λ w. length rows.new.items < w.width) }
    ensures more { IfOk result (λ w. width ≤ w.width) }
{
    let width = next_width(width, live);
    let mut last_moments = Vec::from_elem(alloc, NO_MOMENT, 2 * width)?;
    drop_empty(rows);
    set_row_moments(&mut last_moments, width, rows);
    Ok(Wide {
        width,
        last_moments,
    })
}

fn drop_empty(rows: &mut Vec<SessionRow>)
    ensures items { rows.new.items ≡ filter (λ row. is_some row.kept) rows.old.items }
    ensures len { vec_len rows.new ≤ vec_len rows.old }
    ensures capacity { vec_capacity rows.new ≡ vec_capacity rows.old }
{
    rows.retain(|row| row.kept.is_some());
}

// Sets the last moment of each row to that of its session.
fn set_row_moments(last_moments: &mut Vec<u64>, width: usize, rows: &[SessionRow])
    requires tree { IsTree width last_moments.old.items }
    requires blank { (node : ℕ) → width ≤ node → node < 2 * width
        → node_value last_moments.old.items node ≡ no_moment }
    requires within { length rows.now ≤ width }
    ensures tree { IsTree width last_moments.new.items }
    ensures has_moments { HasLastMoments rows.now width last_moments.new.items }
{
    for place in 0..rows.len() {
        set_last_moment(last_moments, width, place, last_moment_of(&rows[place]));
    }
}

// The last moment of the row's session; what no moment reaches where it is empty.
fn last_moment_of(row: &SessionRow) -> u64
    ensures { result ≡ last_moment_of row.now }
{
    match &row.kept {
        Some(kept) => kept.last().seconds(),
        None => NO_MOMENT,
    }
}

/// The serials of the sessions whose last moments are no later than the limit, in their order. The one
/// error is want of memory.
pub fn due_serials(
    alloc: Global,
    rows: &[SessionRow],
    last_moments: &[u64],
    width: usize,
    limit: u64,
) -> Result<Many<u64>, NoMemory>
    requires last_moments { AreLastMoments rows.now width last_moments.now }
    requires limit { limit < no_moment }
    ensures { IfOk result (λ serials. serials ≡ due_rows rows.now width last_moments.now limit) }
{
    if width == 0 {
        return Ok(Many(Vec::new(alloc)));
    }
    let nodes = due_nodes(alloc, last_moments, width, limit)?;
    Ok(Many(serials_of(alloc, rows, &nodes, width)?))
}

// The serials of the rows at these nodes. The one error is want of memory.
fn serials_of(
    alloc: Global,
    rows: &[SessionRow],
    nodes: &[usize],
    width: usize,
) -> Result<Vec<u64>, NoMemory>
    requires { All (λ node. (width ≤ node) × (node - width < length rows.now)) nodes.now }
    ensures { IfOk result (λ serials. serials.items
        ≡ map (λ node. serial_at rows.now (node - width)) nodes.now) }
{
    let mut serials = Vec::with_capacity(alloc, nodes.len())?;
    for node in nodes {
        serials.push(serial_at(rows, node - width))?;
    }
    Ok(serials)
}

fn serial_at(rows: &[SessionRow], place: usize) -> u64
    requires { place < length rows.now }
    ensures { result ≡ serial_at rows.now place }
{
    rows[place].serial
}
