//! Small runs of a hall with two passes, beside a plain list of events.
ghost use Rattle.std.specs.Prelude.{◌≡◌, ◌+◌, ◌*◌, ◌<◌, ◌≤◌, IfOk};
ghost use Rattle.ifmap_hall.specs.Passes.{IsOf, view_of};

use crate::till::{Payment, Till, Told, pay, tell};
use ifmap_hall::{Book, Hall, Pass};
use std::alloc::{AllocError as NoMemory, Global};
use std::sync::Wait;
use std::test::Fail;

// Whether the second pass asks, the amount, the level and the weight.
type Row = (bool, u64, u64, u64);

// All entries, each with its amount and its weight, and how many of the oldest are in the base.
#[derive(Drop)]
struct Plain {
    alloc: Global,
    entries: Vec<(u64, u64)>,
    settled: usize,
}

impl Plain {
    // The sum of the first entries.
    fn sum(&self, count: usize) -> u64 {
        let mut sum = 0u64;
        for (amount, _) in self.entries.iter().take(count) {
            sum = sum.wrapping_add(*amount);
        }
        sum
    }

    // The weight of the entries that are not in the base.
    fn bytes(&self) -> u64 {
        let mut bytes = 0u64;
        for (_, weight) in self.entries.iter().skip(self.settled) {
            bytes = bytes.wrapping_add(*weight);
        }
        bytes
    }

    // Pays in, and lets as few entries as it takes go to the base.
    fn pay(&mut self, amount: u64, weight: u64) -> Result<(), NoMemory> {
        self.entries.push((amount, weight))?;
        for _ in 0..self.entries.len() {
            if self.bytes() > 1200 {
                self.settled = self.settled.wrapping_add(1);
            }
        }
        Ok(())
    }

    // The answer to a payment, which is then made unless it is held.
    fn ask(&mut self, row: Row) -> Result<Told, NoMemory> {
        let (_, amount, level, weight) = row;
        let sum = self.sum(self.entries.len());
        let end = self.entries.len() as u64;
        if sum < level {
            return Ok(Told::Held(end, amount));
        }
        self.pay(amount, weight)?;
        Ok(Told::Done(end, sum))
    }
}

fn payment_of(row: Row) -> Payment {
    let (_, amount, level, weight) = row;
    Payment {
        amount,
        level,
        weight: weight.min(600),
        pauses: 0,
    }
}

// Two passes of a hall with room for two payments of the heaviest weight.
fn begin(alloc: Global) -> Result<(Hall<Till>, Pass<Till>, Pass<Till>), NoMemory>
    ensures hall { IfOk result (λ r. IsOf r.0 r.1 × IsOf r.0 r.2) }
    ensures light { IfOk result (λ r. (600 ≤ (view_of r.1).terms.heaviest)
        × (600 ≤ (view_of r.2).terms.heaviest)) }
{
    let (hall, mut pass) = Hall::begin(alloc, Till { sum: 0 }, Till { sum: 0 }, 1200, 600)?;
    let other = hall.split(&mut pass)?;
    Ok((hall, pass, other))
}

// Whether a pass answers a payment as the list does.
fn is_as_listed<R: Wait>(
    rt: &R,
    hall: &Hall<Till>,
    pass: &mut Pass<Till>,
    list: &mut Plain,
    row: Row,
) -> Result<bool, NoMemory>
    requires hall { IsOf hall.now pass.old }
    requires light { 600 ≤ (view_of pass.old).terms.heaviest }
    ensures hall { IsOf hall.now pass.new }
    ensures terms { (view_of pass.new).terms ≡ (view_of pass.old).terms }
{
    let answer = tell(pay(rt, list.alloc, hall, pass, payment_of(row)));
    let listed = list.ask(row)?;
    Ok(answer == listed)
}

// Whether two passes answer all payments as a list does.
fn are_as_listed<R: Wait>(
    rt: &R,
    hall: &Hall<Till>,
    first: &mut Pass<Till>,
    second: &mut Pass<Till>,
    list: &mut Plain,
    rows: &[Row],
) -> Result<bool, NoMemory>
    requires first { IsOf hall.now first.old × (600 ≤ (view_of first.old).terms.heaviest) }
    requires second { IsOf hall.now second.old × (600 ≤ (view_of second.old).terms.heaviest) }
    ensures hall { IsOf hall.now first.new × IsOf hall.now second.new }
{
    for row in rows {
        let same = if row.0 {
            is_as_listed(rt, hall, second, list, *row)?
        } else {
            is_as_listed(rt, hall, first, list, *row)?
        };
        if !same {
            return Ok(false);
        }
    }
    Ok(true)
}

// Whether the book is that of the list.
fn is_book_of(book: &Book<Till>, list: &Plain) -> bool {
    book.from == list.settled as u64
        && book.bytes == list.bytes()
        && book.journal.len() == list.entries.len().saturating_sub(list.settled)
        && book.base.sum == list.sum(list.settled)
        && book.machine.sum == list.sum(list.entries.len())
}

// Whether a hall answers all payments as a plain list does, and its book is that list at the end.
fn is_same<R: Wait>(rt: &R, alloc: Global, rows: &[Row]) -> Result<bool, NoMemory> {
    let (hall, mut pass, mut other) = begin(alloc)?;
    let mut list = Plain {
        alloc,
        entries: Vec::new(alloc),
        settled: 0,
    };
    let same = are_as_listed(rt, &hall, &mut pass, &mut other, &mut list, rows)?;
    hall.join(&mut other, pass);
    let book = hall.close(rt, other);
    Ok(same && is_book_of(&book, &list))
}

#[test]
fn small_runs_are_those_of_a_plain_list(rt: HostRuntime) -> Result<(), Fail> {
    let runs: [&[Row]; 8] = [
        &[],
        // The oldest entry goes to the base, and no other.
        &[(false, 1, 0, 600), (true, 2, 0, 600), (false, 3, 0, 600)],
        // Held until the other pass pays in.
        &[(true, 1, 2, 100), (false, 2, 0, 100), (true, 1, 2, 100)],
        // Four that just fit, of which none goes.
        &[
            (false, 4, 0, 300),
            (true, 5, 0, 300),
            (true, 6, 0, 300),
            (false, 7, 0, 300),
        ],
        // Many light ones go for one heavy one.
        &[
            (false, 4, 0, 300),
            (false, 4, 0, 300),
            (true, 4, 0, 300),
            (true, 4, 0, 300),
            (false, 4, 0, 600),
        ],
        // One heavy one goes for a light one.
        &[
            (false, 9, 0, 600),
            (true, 9, 0, 600),
            (true, 9, 0, 1),
            (true, 9, 28, 600),
            (false, 9, 27, 600),
        ],
        // Held with nothing in the book, and events that weigh nothing.
        &[
            (true, 0, 0, 0),
            (true, 0, 1, 0),
            (false, 7, 0, 0),
            (true, 1, 7, 600),
            (true, 1, 9, 600),
        ],
        // Sums past the greatest number.
        &[
            (false, u64::MAX, 0, 5),
            (true, 3, 0, 5),
            (false, 1, 3, 5),
            (true, 1, 2, 5),
        ],
    ];
    for (number, rows) in runs.iter().enumerate() {
        assert!(rt; is_same(&rt, rt.alloc(), *rows)?, "run {number}");
    }
    Ok(())
}
