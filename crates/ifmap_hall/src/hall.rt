//! A hall and a pass. Their ghost fields import all that this file names, so their methods stand in
//! `calls`.
ghost use Rattle.std.specs.Prelude.{◌≡◌, ◌<◌, ◌≤◌};
ghost use Rattle.ifmap_hall.specs.SeatViews.{IsAtRest};
ghost use Rattle.ifmap_hall.specs.Views.{IsSoundView, IsSoundView-prop};

use crate::book::Book;
use crate::machine::Machine;
use crate::rule::InTurn;
use crate::steps::HallSeat;
use crate::view::{SeatView, Terms};
use atomic_table::Table;
use std::alloc::Global;

/// One book, which passes ask in turn. It lies in the one slot of a table with two words: the
/// number served and the next ticket, both modulo 2^64.
#[derive(Drop)]
pub struct Hall<M: Machine> {
    pub(crate) table: Table<Option<Book<M>>, SeatView<M>, Terms<M>, InTurn<M>, Global>,
    ghost shape: { table.shared.table_id.words ≡ 2 },
}

/// The right to ask a hall. It can go to another thread.
#[derive(Drop)]
pub struct Pass<M: Machine> {
    pub(crate) seat: HallSeat<M>,
    // Written beside each of its entries.
    pub(crate) number: u64,
    // How many passes were split from it.
    pub(crate) made: u64,
    // Parts of the right to draw, no more than its seat has.
    pub(crate) parts: u64,
    ghost rests: { IsAtRest seat.me },
    ghost some_part: { 0 < parts },
    ghost parts_there: { parts ≤ seat.me.0.parts },
    ghost sound: { IsSoundView seat.me.0.view } by { IsSoundView-prop seat.me.0.view },
}
