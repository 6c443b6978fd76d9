//! A desk over a book.
ghost use Rattle.std.specs.Prelude.{◌≡◌, ◌≤◌, IfOk};
ghost use Rattle.ifmap_desks.specs.Machines.{IsCoreBook};
ghost use Rattle.ifmap_dialogue.specs.Desks.{greatest_weight};

use crate::events::{
    AnswerKind, Asking, BEGIN, FIRST_POLL, Told, event_of, first, loss_event, machine, repetition,
    tell,
};
use ifmap_desks::{BookDesk, CoreMachine, FitEvent};
use ifmap_dialogue::Desk;
use ifmap_hall::{Book, Machine};
use std::alloc::{AllocError as NoMemory, Global};
use std::collections::VecDeque;
use std::test::Fail;

fn empty_book(alloc: Global) -> Book<CoreMachine>
    ensures book { IsCoreBook result }
    ensures bears { greatest_weight ≤ result.heaviest }
{
    Book {
        base: machine(alloc),
        machine: machine(alloc),
        from: 0,
        journal: VecDeque::new(alloc),
        bytes: 0,
        limit: 160_002_000,
        heaviest: 80_001_000,
    }
}

// A book with one entry, whose end is the last number.
fn last_book(alloc: Global) -> Result<Book<CoreMachine>, NoMemory>
    ensures book { IfOk result IsCoreBook }
    ensures bears { IfOk result (λ book. greatest_weight ≤ book.heaviest) }
{
    let entry = FitEvent::from_event(event_of(alloc, first("c1", 1, BEGIN))?);
    let mut after = machine(alloc);
    let _reply = after.step(alloc, &entry)?;
    let mut journal = VecDeque::new(alloc);
    journal.push_back((7, entry))?;
    Ok(Book {
        base: machine(alloc),
        machine: after,
        from: u64::MAX - 1,
        journal,
        bytes: 2824,
        limit: 160_002_000,
        heaviest: 80_001_000,
    })
}

// Asks at the desk.
fn ask(alloc: Global, desk: &mut BookDesk, asking: Asking<'_>) -> Told {
    match event_of(alloc, asking) {
        Ok(event) => tell(desk.ask(event)),
        Err(_) => Told::NoMemory,
    }
}

// Tells the desk that the answer to a poll of the first client was lost.
fn lose(alloc: Global, desk: &mut BookDesk) -> Told {
    match loss_event(alloc, "c1", FIRST_POLL) {
        Ok(event) => tell(desk.ask(event)),
        Err(_) => Told::NoMemory,
    }
}

#[test]
fn a_poll_is_held_and_a_lost_answer_heard(rt: HostRuntime) -> Result<(), Fail> {
    let alloc = rt.alloc();
    let mut desk = BookDesk::new(alloc, empty_book(alloc), 7);
    let told = [
        ask(alloc, &mut desk, first("c1", 1, BEGIN)),
        ask(alloc, &mut desk, first("c1", 2, FIRST_POLL)),
        ask(alloc, &mut desk, repetition("c1", 2, FIRST_POLL)),
        lose(alloc, &mut desk),
        ask(alloc, &mut desk, repetition("c1", 2, FIRST_POLL)),
        ask(alloc, &mut desk, first("c1", 3, FIRST_POLL)),
    ];
    let book = desk.into_book();
    assert!(rt;
        told == [
            Told::Done(0, AnswerKind::Began),
            Told::Done(1, AnswerKind::Waits),
            Told::Held(2),
            Told::Done(2, AnswerKind::Heard),
            Told::Done(3, AnswerKind::Ended),
            Told::Done(4, AnswerKind::Refused)
        ]
    );
    assert!(rt; book.from == 0 && book.journal.len() == 5 && book.bytes == 4 * 2824 + 1000);
    Ok(())
}

#[test]
fn a_book_without_numbers_is_spent(rt: HostRuntime) -> Result<(), Fail> {
    let alloc = rt.alloc();
    let mut desk = BookDesk::new(alloc, last_book(alloc)?, 7);
    // It would be held, but that is looked at later.
    let spent = ask(alloc, &mut desk, repetition("c1", 2, FIRST_POLL));
    let book = desk.into_book();
    assert!(rt; spent == Told::Spent(18_446_744_073_709_551_615));
    assert!(rt; book.journal.len() == 1);
    Ok(())
}
