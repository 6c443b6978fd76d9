//! Waiting for the turn, and the turn.
ghost use Rattle.std.specs.Prelude.{◌≡◌, ◌≢◌, ℕ, ◌+◌, ◌%◌, ◌^◌, ◌<◌, ◌≤◌, [], ◌∷◌, ◌++◌, length};
ghost use Rattle.ifmap_hall.specs.Books.{IsBook};
ghost use Rattle.ifmap_hall.specs.SeatViews.{ticket_of, IsAtRest, IsWaiting};
ghost use Rattle.ifmap_hall.specs.Plays.{FindsBook, TakesBook};
ghost use Rattle.ifmap_hall.specs.HallAsks.{TookATurn, AnsweredFromHistory, TakesTurn};

use crate::book::{Asked, Book};
use crate::machine::Machine;
use crate::steps::{HallSeat, HallTable, draw, look, pass_on};
use crate::view::{HallHistory, HallView};
use std::alloc::Global;
use std::sync::Wait;
use std::{hint, thread};

// How often a pass looks before it gives its processor up.
const SPINS: u32 = 64;

// How often it gives its processor up before it sleeps.
const YIELDS: u32 = 16;

// Waits until the ticket is served, and takes the book.
pub(crate) fn await_turn<M: Machine, R: Wait>(
    rt: &R,
    table: &HallTable<M>,
    seat: &mut HallSeat<M>,
    ticket: u64,
)
    requires own { seat.old.table_id ≡ table.now.table_id }
    requires words { table.now.table_id.words ≡ 2 }
    requires waits { IsWaiting seat.old.me }
    requires ticket { ticket ≡ ticket_of seat.old.me.0.stage % 2 ^ 64 }
    ensures own { (seat.new.table_id ≡ seat.old.table_id) × (seat.new.id ≡ seat.old.id) }
    ensures served { TakesBook M.next M.weight_of seat.old.me.0 seat.new.me }
{
    let mut looks = 0u32;
    for _ in rt.forever() {
        let served = look(table, seat);
        if served == ticket {
            return;
        }
        if looks < SPINS {
            looks += 1;
            hint::spin_loop();
        } else if looks < SPINS + YIELDS {
            looks += 1;
            thread::yield_now();
        } else {
            table.park(rt, 0, (served % (1 << 32)) as u32);
        }
    }
    unreachable!()
}

// Asks the book that was taken. Whatever the seat knew and whatever history it found, the book can
// be given back, and tells what it answered.
fn turn_of<M: Machine>(
    book: &mut Book<M>,
    alloc: Global,
    number: u64,
    event: M::Event,
) -> Asked<M::Event, M::Reply>
where
    M::Event: Drop,
    M::Reply: Drop,
    requires book { IsBook M.next M.weight_of book.old }
    requires light { M.weight_of event ≤ book.old.heaviest }
    ensures { (v : HallView M M.Event M.Reply) (h : HallHistory M.Event)
        → FindsBook M.next M.weight_of v h book.old
        → TakesTurn M.next M.weight_of M.holds_on M.reply v h book.new number event result }
{
    book.turn(alloc, number, event)
}

// Draws a ticket, waits, asks the book and passes the turn on.
pub(crate) fn ask_seat<M: Machine, R: Wait>(
    rt: &R,
    table: &HallTable<M>,
    alloc: Global,
    seat: &mut HallSeat<M>,
    number: u64,
    event: M::Event,
) -> Asked<M::Event, M::Reply>
where
    M: Drop,
    M::Event: Drop,
    M::Reply: Drop,
    requires own { seat.old.table_id ≡ table.now.table_id }
    requires words { table.now.table_id.words ≡ 2 }
    requires idle { IsAtRest seat.old.me }
    requires light { M.weight_of event ≤ seat.old.me.0.view.terms.heaviest }
    ensures own { (seat.new.table_id ≡ seat.old.table_id) × (seat.new.id ≡ seat.old.id) }
    ensures rests { IsAtRest seat.new.me × (seat.new.me.0.parts ≡ seat.old.me.0.parts) }
    ensures took { TookATurn seat.old.me.0.view seat.new.me.0.view }
    ensures answered { AnsweredFromHistory M.next M.holds_on M.reply
        seat.old.me.0.view seat.new.me.0.view number event result }
{
    let ticket = draw(table, seat);
    await_turn(rt, table, seat, ticket);
    let Some(mut book) = table.exchange(seat, 0, None) else {
        unreachable!();
    };
    let answer = turn_of(&mut book, alloc, number, event);
    let _none = table.exchange(seat, 0, Some(book));
    pass_on(table, seat);
    wake_next(table);
    answer
}

// Wakes those that wait, if any do: tickets were drawn that are not served yet.
fn wake_next<M: Machine>(table: &HallTable<M>)
    requires { table.now.table_id.words ≡ 2 }
{
    if table.peek(1) != table.peek(0) {
        table.wake_all(0);
    }
}
