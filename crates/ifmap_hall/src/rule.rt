//! The rule of the hall's table, and the names of its steps.
ghost use Rattle.ifmap_hall.specs.Rule.{Keeps};
ghost use Rattle.ifmap_hall.specs.SeatViews.{first_seat, kept_seat, given_seat};
ghost use Rattle.ifmap_hall.specs.SeatViews.{joint_seat, spent_seat};
ghost use Rattle.ifmap_hall.specs.Plays.{Draws, Looks, LooksAtRest, PassesOn};

use crate::book::Book;
use crate::machine::Machine;
use crate::view::{SeatView, Terms};
use atomic_table::{Join, Play, Split, TableRule};
use std::marker::PhantomData;

/// The rule of a hall's table.
pub struct InTurn<M> {
    of: PhantomData<M>,
}

impl<M: Machine> TableRule<Option<Book<M>>, SeatView<M>, Terms<M>> for InTurn<M> {
    ghost holds = { Keeps M.next M.weight_of };

    ghost first = { first_seat };
}

/// A ticket is drawn.
pub struct Draw;

impl<M: Machine> Play<Option<Book<M>>, SeatView<M>> for Draw {
    ghost then = { Draws };
}

/// A look whether the ticket is served. Where it is, the book leaves the table.
pub struct Look;

impl<M: Machine> Play<Option<Book<M>>, SeatView<M>> for Look {
    ghost then = { Looks M.next M.weight_of };
}

/// The turn is passed on. The book comes back to the table.
pub struct PassOn;

impl<M: Machine> Play<Option<Book<M>>, SeatView<M>> for PassOn {
    ghost then = { PassesOn M.next M.reply };
}

/// A seat is split.
pub struct Cut;

impl<M: Machine> Split<SeatView<M>> for Cut {
    ghost left = { kept_seat };

    ghost right = { given_seat };
}

/// A seat is joined to another.
pub struct Glue;

impl<M: Machine> Join<SeatView<M>> for Glue {
    ghost both = { joint_seat };

    ghost spent = { spent_seat M.some_state };
}

/// A look of a seat at rest, which has no ticket, after a join.
pub struct LookAtRest;

impl<M: Machine> Play<Option<Book<M>>, SeatView<M>> for LookAtRest {
    ghost then = { LooksAtRest };
}
