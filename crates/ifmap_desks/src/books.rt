//! Asking a book.
ghost use Rattle.std.specs.Prelude.{◌≡◌, ◌≤◌, ◌∷◌, [], Some};
ghost use Rattle.ifmap_desks.specs.Asking.{AnsweredByBook, book_at, book_seen, pass_at};
ghost use Rattle.ifmap_desks.specs.Machines.{IsCoreBook};
ghost use Rattle.ifmap_dialogue.specs.Desks.{DeskTakesTurns, greatest_weight, weight};

use crate::answers::{AnswerCounts, plain_answer};
use crate::book_desk::BookDesk;
use crate::events::FitEvent;
use crate::laws::{answers_fit_events, holding_is_exact};
use crate::machine::CoreMachine;
use ifmap_dialogue::{Answer, Desk, Event};
use ifmap_hall::{Asked, Book};
use std::alloc::Global;

impl BookDesk {
    /// A desk that asks this book under this number of a pass. It takes no memory.
    pub fn new(alloc: Global, book: Book<CoreMachine>, pass: u64) -> BookDesk
        requires book { IsCoreBook book }
        requires bears { greatest_weight ≤ book.heaviest }
        ensures book { book_at result ≡ book }
        ensures number { pass_at result ≡ pass }
        ensures said { (book_seen result).said ≡ Some [] }
        ensures held { (book_seen result).held ≡ 0 }
        ensures spent { (book_seen result).spent ≡ 0 }
    {
        let since = book.end();
        BookDesk {
            alloc,
            book,
            pass,
            since,
            counts: AnswerCounts::new(),
        }
    }

    /// The book, as the desk's asks left it.
    pub fn into_book(self) -> Book<CoreMachine>
        ensures same { result ≡ book_at self }
        ensures book { IsCoreBook result }
        ensures bears { greatest_weight ≤ result.heaviest }
    {
        self.book
    }
}

impl Desk for BookDesk {
    type Home = ();

    ghost seen = { book_seen };

    /// Asks the book, whose turn says what it answers. The calls are told while no entry since the
    /// desk's making has gone to the base.
    fn ask(&mut self, event: Event) -> Asked<Event, Answer>
        requires light { weight event ≤ greatest_weight }
        ensures tells { DeskTakesTurns (book_seen self.old) (book_seen self.new)
            (record { event = event; asked = result } ∷ []) }
        ensures number { pass_at self.new ≡ pass_at self.old }
        ensures answered { AnsweredByBook (book_at self.old) (book_at self.new)
            (pass_at self.old) event result }
    {
        answers_fit_events();
        holding_is_exact();
        let asked = self
            .book
            .turn(self.alloc, self.pass, FitEvent::from_event(event));
        let answer = plain_answer(asked);
        self.counts.count(&answer);
        answer
    }
}
