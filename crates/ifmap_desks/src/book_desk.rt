//! The parts of a desk over a book. Its ghost fields import all that this file names, so its methods
//! stand in `books`.
ghost use Rattle.std.specs.Prelude.{◌≤◌};
ghost use Rattle.ifmap_desks.specs.Machines.{IsCoreBook};
ghost use Rattle.ifmap_dialogue.specs.Desks.{greatest_weight};
ghost use Rattle.ifmap_hall.specs.Books.{end_of_book};

use crate::answers::AnswerCounts;
use crate::machine::CoreMachine;
use ifmap_hall::Book;
use std::alloc::Global;

/// A desk that asks one book, under the number of a pass.
#[derive(Drop)]
pub struct BookDesk {
    pub(crate) alloc: Global,
    pub(crate) book: Book<CoreMachine>,
    pub(crate) pass: u64,
    // The place that was next at its making.
    pub(crate) since: u64,
    pub(crate) counts: AnswerCounts,
    pub ghost in_order: { IsCoreBook book },
    pub ghost bears: { greatest_weight ≤ book.heaviest },
    pub ghost since_then: { since ≤ end_of_book book },
}
