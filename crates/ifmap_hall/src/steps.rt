//! The steps on a hall's table.
ghost use Rattle.std.specs.Prelude.{◌≡◌, ◌≢◌, ℕ, ◌+◌, ◌%◌, ◌^◌, ◌<◌, ◌≤◌, [], ◌∷◌, ◌++◌, length};
ghost use Rattle.ifmap_hall.specs.SeatViews.{with_ticket, kept_seat, given_seat, joint_seat};
ghost use Rattle.ifmap_hall.specs.SeatViews.{ticket_of, IsSoundSeat};
ghost use Rattle.ifmap_hall.specs.SeatViews.{IsAtRest, IsWaiting, HoldsBook};
ghost use Rattle.ifmap_hall.specs.Plays.{TakesBook, Brings, WentOn};

use crate::book::Book;
use crate::machine::Machine;
use crate::rule::{Cut, Draw, Glue, InTurn, Look, LookAtRest, PassOn};
use crate::view::{SeatView, Terms};
use atomic_table::{Seat, Shared};

// The table as passes see it.
pub(crate) type HallTable<M> = Shared<Option<Book<M>>, SeatView<M>, Terms<M>, InTurn<M>>;

// The seat of a pass.
pub(crate) type HallSeat<M> = Seat<Option<Book<M>>, SeatView<M>>;

// Draws a ticket.
pub(crate) fn draw<M: Machine>(table: &HallTable<M>, seat: &mut HallSeat<M>) -> u64
    requires own { seat.old.table_id ≡ table.now.table_id }
    requires words { table.now.table_id.words ≡ 2 }
    requires idle { IsAtRest seat.old.me }
    ensures own { (seat.new.table_id ≡ seat.old.table_id) × (seat.new.id ≡ seat.old.id) }
    ensures ticket { (t : ℕ) × (result ≡ t % 2 ^ 64)
        × (seat.new.me ≡ (with_ticket seat.old.me.0 t, [])) }
{
    table.fetch_add::<Draw>(seat, 1, 1)
}

// Looks whether the ticket is served, and takes the book if it is.
pub(crate) fn look<M: Machine>(table: &HallTable<M>, seat: &mut HallSeat<M>) -> u64
    requires own { seat.old.table_id ≡ table.now.table_id }
    requires words { table.now.table_id.words ≡ 2 }
    requires waits { IsWaiting seat.old.me }
    ensures own { (seat.new.table_id ≡ seat.old.table_id) × (seat.new.id ≡ seat.old.id) }
    ensures served { result ≡ ticket_of seat.old.me.0.stage % 2 ^ 64
        → TakesBook M.next M.weight_of seat.old.me.0 seat.new.me }
    ensures not_yet { result ≢ ticket_of seat.old.me.0.stage % 2 ^ 64
        → seat.new.me ≡ seat.old.me }
{
    table.load::<Look>(seat, 0)
}

// Passes the turn on, and with it the book.
pub(crate) fn pass_on<M: Machine>(table: &HallTable<M>, seat: &mut HallSeat<M>)
    requires own { seat.old.table_id ≡ table.now.table_id }
    requires words { table.now.table_id.words ≡ 2 }
    requires holds { HoldsBook seat.old.me.0 }
    requires book { Brings M.next M.weight_of seat.old.me }
    ensures own { (seat.new.table_id ≡ seat.old.table_id) × (seat.new.id ≡ seat.old.id) }
    ensures passed { WentOn M.next M.reply seat.old.me seat.new.me }
{
    table.fetch_add::<PassOn>(seat, 0, 1);
}

// Splits a seat in two.
pub(crate) fn cut<M: Machine>(table: &HallTable<M>, seat: &mut HallSeat<M>) -> HallSeat<M>
    requires own { seat.old.table_id ≡ table.now.table_id }
    requires words { table.now.table_id.words ≡ 2 }
    requires idle { IsAtRest seat.old.me × (1 < seat.old.me.0.parts) }
    ensures own { (seat.new.table_id ≡ seat.old.table_id) × (result.table_id ≡ seat.old.table_id) }
    ensures kept { seat.new.me ≡ (kept_seat seat.old.me.0, []) }
    ensures given { result.me ≡ (given_seat seat.old.me.0, []) }
{
    table.split_seat::<Cut>(seat)
}

// Joins another seat to this one.
pub(crate) fn glue<M: Machine>(table: &HallTable<M>, seat: &mut HallSeat<M>, other: HallSeat<M>)
    requires own { seat.old.table_id ≡ table.now.table_id }
    requires other { other.table_id ≡ table.now.table_id }
    requires words { table.now.table_id.words ≡ 2 }
    requires idle { IsAtRest seat.old.me × IsAtRest other.me }
    ensures own { seat.new.table_id ≡ seat.old.table_id }
    ensures both { seat.new.me ≡ (joint_seat seat.old.me.0 other.me.0, []) }
{
    table.join_seat::<Glue>(seat, other);
}

// Looks without a ticket, which tells what the rule says of each seat.
pub(crate) fn look_at_rest<M: Machine>(table: &HallTable<M>, seat: &mut HallSeat<M>)
    requires own { seat.old.table_id ≡ table.now.table_id }
    requires words { table.now.table_id.words ≡ 2 }
    requires idle { IsAtRest seat.old.me }
    ensures own { (seat.new.table_id ≡ seat.old.table_id) × (seat.new.id ≡ seat.old.id) }
    ensures same { seat.new.me ≡ seat.old.me }
    ensures sound { IsSoundSeat seat.old.me.0 }
{
    table.load::<LookAtRest>(seat, 0);
}
