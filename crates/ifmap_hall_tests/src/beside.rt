//! Four workers over one hall, each with a pass of its own.
ghost use Rattle.std.specs.Prelude.{◌≡◌, ◌+◌, ◌*◌, ◌<◌, ◌≤◌, All, IfOk, length};
ghost use Rattle.ifmap_hall.specs.Passes.{IsOf, view_of};

use crate::till::{Payment, Till, Told, pay, tell};
use ifmap_hall::{Book, Hall, Pass};
use std::alloc::{AllocError as NoMemory, Global};
use std::sync::Wait;
use std::sync::atomic::{AtomicU64, Ordering};
use std::test::Fail;
use std::thread;
use std::thread::Threads;
use std::time::{Clock, Duration};

// How many payments each worker makes.
const ASKS: u64 = 40;

// How many milliseconds a worker waits for another at most.
const PATIENCE: u32 = 20_000;

// What one worker needs.
#[derive(Drop)]
struct Stand {
    pass: Pass<Till>,
    // How many workers must have been answered before this one asks.
    after: u64,
    // How many pauses each of its payments takes.
    pauses: u32,
    // The place and the reply of each of its payments.
    answers: Vec<(u64, u64)>,
}

// Waits until so many workers were answered. It gives up after a while, so that it ends by itself
// where the workers do not run beside each other.
fn wait_for<R: Clock>(rt: &R, answered: &AtomicU64, count: u64) -> bool {
    for _ in 0..PATIENCE {
        if answered.load(Ordering::SeqCst) >= count {
            return true;
        }
        thread::sleep(rt, Duration::from_millis(1));
    }
    false
}

// Waits for the others, makes one payment, says so, and makes the rest.
fn work<R: Wait + Clock>(
    rt: &R,
    alloc: Global,
    hall: &Hall<Till>,
    answered: &AtomicU64,
    stand: &mut Stand,
)
    requires hall { IsOf hall.now stand.old.pass }
    requires light { 600 ≤ (view_of stand.old.pass).terms.heaviest }
    ensures hall { IsOf hall.now stand.new.pass }
{
    let Stand {
        pass,
        after,
        pauses,
        answers,
    } = stand;
    if !wait_for(rt, answered, *after) {
        return;
    }
    for round in 0..ASKS {
        let payment = Payment {
            amount: round % 3,
            level: 0,
            weight: 600,
            pauses: *pauses,
        };
        let answer = tell(pay(rt, alloc, hall, pass, payment));
        if let Told::Done(place, reply) = answer
            && answers.push((place, reply)).is_err()
        {
            return;
        }
        if round == 0 {
            answered.fetch_add(1, Ordering::SeqCst);
        }
    }
}

// Each stand by a worker of its own.
fn run_all<R: Threads + Wait + Clock + Sync>(
    rt: &R,
    alloc: Global,
    hall: &Hall<Till>,
    answered: &AtomicU64,
    stands: &mut [Stand],
)
    requires some { 0 < length stands.old }
    requires stands { All (λ s. IsOf hall.now s.pass
        × (600 ≤ (view_of s.pass).terms.heaviest)) stands.old }
    ensures { All (λ s. IsOf hall.now s.pass) stands.new }
{
    let threads = stands.len();
    thread::for_each_mut(
        rt,
        stands,
        threads,
        &|_, stand: &mut Stand|
            requires { IsOf hall.now stand.now.pass
                × (600 ≤ (view_of stand.now.pass).terms.heaviest) }
            ensures { IsOf hall.entry.now stand.exit.now.pass }
        { work(rt, alloc, hall, answered, stand) },
    );
}

// Four stands. Each but the last waits for all those after it, so that workers one after the other
// would wait for nobody.
fn hand_out(
    alloc: Global,
    hall: &Hall<Till>,
    pass: &mut Pass<Till>,
    pauses: u32,
) -> Result<Vec<Stand>, NoMemory>
    requires hall { IsOf hall.now pass.old }
    requires light { 600 ≤ (view_of pass.old).terms.heaviest }
    ensures hall { IsOf hall.now pass.new }
    ensures stands { IfOk result (λ v. All (λ s. IsOf hall.now s.pass
        × (600 ≤ (view_of s.pass).terms.heaviest)) v.items) }
{
    let mut stands = Vec::new(alloc);
    for after in [3, 2, 1, 0] {
        let own = hall.split(pass)?;
        let answers = Vec::with_capacity(alloc, 64)?;
        stands.push(Stand {
            pass: own,
            after,
            pauses,
            answers,
        })?;
    }
    Ok(stands)
}

// The answers of all stands, in order.
fn gather(alloc: Global, stands: &[Stand]) -> Result<Vec<(u64, u64)>, NoMemory> {
    let mut all = Vec::new(alloc);
    for stand in stands {
        for answer in stand.answers.as_slice() {
            all.push(*answer)?;
        }
    }
    all.sort()?;
    Ok(all)
}

// The places are all there, each once, with the sum of the entries before it as its reply.
fn are_in_order(answers: &[(u64, u64)], book: &Book<Till>) -> bool {
    let mut place = 0u64;
    let mut sum = 0u64;
    for ((own, reply), entry) in answers.iter().copied().zip(book.journal.iter()) {
        if own != place || reply != sum {
            return false;
        }
        place = place.wrapping_add(1);
        sum = sum.wrapping_add(entry.1.amount);
    }
    book.from == 0 && book.journal.len() == answers.len() && book.machine.sum == sum
}

// Whether four workers are all answered, as one after the other would be.
fn are_served<R: Threads + Wait + Clock + Sync>(
    rt: &R,
    alloc: Global,
    pauses: u32,
) -> Result<bool, NoMemory> {
    let (hall, mut pass) = Hall::begin(alloc, Till { sum: 0 }, Till { sum: 0 }, 600_000, 600)?;
    let mut stands = hand_out(alloc, &hall, &mut pass, pauses)?;
    if stands.is_empty() {
        return Ok(false);
    }
    let answered = AtomicU64::new(0);
    run_all(rt, alloc, &hall, &answered, stands.as_mut_slice());
    let answers = gather(alloc, stands.as_slice())?;
    let book = hall.close(rt, pass);
    let all = answered.into_inner() == 4 && answers.len() as u64 == 4 * ASKS;
    Ok(all && are_in_order(answers.as_slice(), &book))
}

#[test]
fn four_workers_ask_beside_each_other(rt: HostRuntime) -> Result<(), Fail> {
    assert!(rt; are_served(&rt, rt.alloc(), 0)?);
    Ok(())
}

// A step takes a millisecond or more, so those that wait fall asleep; nobody would wake by itself.
#[test]
fn workers_that_wait_long_sleep_and_are_woken(rt: HostRuntime) -> Result<(), Fail> {
    assert!(rt; are_served(&rt, rt.alloc(), 100_000)?);
    Ok(())
}
