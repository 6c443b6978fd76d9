//! Rows that a book and a hall must answer.
ghost use Rattle.std.specs.Prelude.{◌≡◌, ◌+◌, ◌*◌, ◌<◌, ◌≤◌, IfOk};
ghost use Rattle.ifmap_hall.specs.Books.{IsBook};
ghost use Rattle.ifmap_hall.specs.Passes.{IsOf};

use crate::till::{Payment, Till, Told, heavy_payment, light_payment, pay, tell};
use ifmap_hall::{
    Asked, Book, Hall, Machine, Pass, carries_itself, carries_through, the_book_lies_in_order,
};
use std::alloc::{AllocError as NoMemory, Global};
use std::collections::VecDeque;
use std::test::Fail;

// Whether a book begins at this number, with that base, and has so many bytes and entries.
fn begins_at(book: &Book<Till>, from: u64, base: u64, bytes: u64, entries: usize) -> bool {
    book.from == from
        && book.base.sum == base
        && book.bytes == bytes
        && book.journal.len() == entries
}

#[test]
fn the_oldest_entry_goes_to_the_base(rt: HostRuntime) -> Result<(), Fail> {
    let alloc = rt.alloc();
    let (hall, mut pass) = Hall::begin(alloc, Till { sum: 0 }, Till { sum: 0 }, 1200, 600)?;
    let first = tell(pay(&rt, alloc, &hall, &mut pass, heavy_payment(5)));
    let second = tell(pay(&rt, alloc, &hall, &mut pass, heavy_payment(7)));
    let third = tell(pay(&rt, alloc, &hall, &mut pass, heavy_payment(9)));
    let book = hall.close(&rt, pass);
    let told = [first, second, third] == [Told::Done(0, 0), Told::Done(1, 5), Told::Done(2, 12)];
    let closed = begins_at(&book, 1, 5, 1200, 2) && book.machine.sum == 21 && book.end() == 3;
    assert!(rt; told && closed);
    Ok(())
}

#[test]
fn no_entry_goes_while_there_is_room(rt: HostRuntime) -> Result<(), Fail> {
    let alloc = rt.alloc();
    let (hall, mut pass) = Hall::begin(alloc, Till { sum: 0 }, Till { sum: 0 }, 1200, 600)?;
    let first = tell(pay(&rt, alloc, &hall, &mut pass, light_payment(5)));
    let second = tell(pay(&rt, alloc, &hall, &mut pass, light_payment(7)));
    let third = tell(pay(&rt, alloc, &hall, &mut pass, light_payment(9)));
    let fourth = tell(pay(&rt, alloc, &hall, &mut pass, light_payment(1)));
    let book = hall.close(&rt, pass);
    let told = [first, second, third, fourth]
        == [
            Told::Done(0, 0),
            Told::Done(1, 5),
            Told::Done(2, 12),
            Told::Done(3, 21),
        ];
    assert!(rt; told && begins_at(&book, 0, 0, 1200, 4) && book.machine.sum == 22);
    Ok(())
}

// A book with one entry, whose end is the last number.
fn last_book(alloc: Global) -> Result<Book<Till>, NoMemory>
    ensures book { IfOk result (λ book.
        IsBook ⟦<Till as Machine>⟧.next ⟦<Till as Machine>⟧.weight_of book) }
    ensures heaviest { IfOk result (λ b. b.heaviest ≡ 600) }
{
    let mut journal = VecDeque::new(alloc);
    let payment = Payment {
        amount: 1,
        level: 0,
        weight: 600,
        pauses: 0,
    };
    journal.push_back((7, payment))?;
    Ok(Book {
        base: Till { sum: 5 },
        machine: Till { sum: 6 },
        from: u64::MAX - 1,
        journal,
        bytes: 600,
        limit: 1200,
        heaviest: 600,
    })
}

#[test]
fn a_book_without_numbers_says_so(rt: HostRuntime) -> Result<(), Fail> {
    let mut book = last_book(rt.alloc())?;
    // It would be held, but that is looked at later.
    let payment = Payment {
        amount: 1,
        level: 100,
        weight: 600,
        pauses: 0,
    };
    let answer = book.turn(rt.alloc(), 0, payment);
    assert!(rt; tell(answer) == Told::Spent(u64::MAX));
    assert!(rt; book.from == u64::MAX - 1 && book.journal.len() == 1 && book.machine.sum == 6);
    carries_itself::<Till>();
    carries_through::<Till>();
    the_book_lies_in_order::<Till>();
    Ok(())
}

// The numbers of the passes that asked for the first four entries.
fn numbers_of(book: &Book<Till>) -> [u64; 4] {
    let mut numbers = [99; 4];
    for (slot, entry) in numbers.iter_mut().zip(book.journal.iter()) {
        *slot = entry.0;
    }
    numbers
}

#[test]
fn two_passes_ask_one_history(rt: HostRuntime) -> Result<(), Fail> {
    let alloc = rt.alloc();
    let (hall, mut pass) = Hall::begin(alloc, Till { sum: 0 }, Till { sum: 0 }, 6000, 600)?;
    let mut other = hall.split(&mut pass)?;
    let first = tell(pay(&rt, alloc, &hall, &mut pass, heavy_payment(3)));
    let second = tell(pay(&rt, alloc, &hall, &mut other, heavy_payment(4)));
    let third = tell(pay(&rt, alloc, &hall, &mut pass, heavy_payment(5)));
    hall.join(&mut pass, other);
    let fourth = tell(pay(&rt, alloc, &hall, &mut pass, heavy_payment(6)));
    let book = hall.close(&rt, pass);
    let told = [first, second, third, fourth]
        == [
            Told::Done(0, 0),
            Told::Done(1, 3),
            Told::Done(2, 7),
            Told::Done(3, 12),
        ];
    // The passes have numbers of their own.
    assert!(rt; told && numbers_of(&book) == [0, 1, 0, 0]);
    Ok(())
}

// The pass that is split off the one that is split off this.
fn split_twice(hall: &Hall<Till>, pass: &mut Pass<Till>) -> Result<Pass<Till>, NoMemory>
    requires { IsOf hall.now pass.old }
    ensures { IfOk result (λ p. IsOf hall.now p) }
{
    let mut next = hall.split(pass)?;
    hall.split(&mut next)
}

// Whether the second pass after this one is not split, and the first is.
fn splits_once_more(hall: &Hall<Till>, pass: &mut Pass<Till>) -> Result<bool, NoMemory>
    requires { IsOf hall.now pass.old }
{
    let mut next = hall.split(pass)?;
    let mut last = hall.split(&mut next)?;
    Ok(hall.split(&mut last).is_err() && hall.split(&mut next).is_ok())
}

// Each gets a 65,536th of the parts of the one before it, so the fifth has one.
#[test]
fn a_pass_with_one_part_is_not_split(rt: HostRuntime) -> Result<(), Fail> {
    let alloc = rt.alloc();
    let (hall, mut first) = Hall::begin(alloc, Till { sum: 0 }, Till { sum: 0 }, 1200, 600)?;
    let mut third = split_twice(&hall, &mut first)?;
    assert!(rt; splits_once_more(&hall, &mut third)?);
    Ok(())
}
