//! A machine that adds up.
ghost use Rattle.std.specs.Prelude.{◌≡◌, ◌+◌, ◌%◌, ◌^◌, ◌≤◌, nat_lt};
ghost use Rattle.ifmap_hall.specs.Passes.{IsOf, view_of};

use ifmap_hall::{Asked, Hall, Machine, Pass};
use std::alloc::{AllocError as NoMemory, Global};
use std::hint;
use std::sync::Wait;

// An amount that is paid in as soon as the till has a sum of at least `level`. Paying it in takes so
// many pauses of the processor.
#[derive(Drop)]
pub(crate) struct Payment {
    pub(crate) amount: u64,
    pub(crate) level: u64,
    pub(crate) weight: u64,
    pub(crate) pauses: u32,
    ghost light: { weight ≤ 600 },
}

// The sum of all that was paid in. It replies with the sum before.
#[derive(Drop)]
pub(crate) struct Till {
    pub(crate) sum: u64,
}

impl Machine for Till {
    type Event = Payment;

    type Reply = u64;

    ghost weight_of = { λ e. e.weight };

    ghost holds_on = { λ m e. nat_lt m.sum e.level };

    ghost next = { λ m e. record { sum = (m.sum + e.amount) % 2 ^ 64 } };

    ghost reply = { λ m e. m.sum };

    ghost some_state = { record { sum = 0 } };

    fn weight(&self, event: &Payment) -> u64 {
        event.weight
    }

    fn would_hold(&self, event: &Payment) -> bool {
        self.sum < event.level
    }

    fn step(&mut self, _alloc: Global, event: &Payment) -> Result<u64, NoMemory> {
        for _ in 0..event.pauses {
            hint::spin_loop();
        }
        let before = self.sum;
        self.sum = before.wrapping_add(event.amount);
        Ok(before)
    }
}

// Pays in by a pass.
pub(crate) fn pay<R: Wait>(
    rt: &R,
    alloc: Global,
    hall: &Hall<Till>,
    pass: &mut Pass<Till>,
    payment: Payment,
) -> Asked<Payment, u64>
    requires hall { IsOf hall.now pass.old }
    requires light { 600 ≤ (view_of pass.old).terms.heaviest }
    ensures hall { IsOf hall.now pass.new }
    ensures terms { (view_of pass.new).terms ≡ (view_of pass.old).terms }
    ensures turns { (view_of pass.new).turns ≡ (view_of pass.old).turns + 1 }
{
    let _weight = payment.weight;
    hall.ask(rt, alloc, pass, payment)
}

// What was answered.
#[derive(Clone, Copy, Debug, PartialEq)]
pub(crate) enum Told {
    // The place and the reply.
    Done(u64, u64),
    // The place, and the amount of the event that came back.
    Held(u64, u64),
    // The number of entries.
    Spent(u64),
    NoMemory,
}

pub(crate) fn tell(answer: Asked<Payment, u64>) -> Told {
    match answer {
        Asked::Done { place, reply } => Told::Done(place, reply),
        Asked::Held { place, event } => Told::Held(place, event.amount),
        Asked::Spent { entries, event: _ } => Told::Spent(entries),
        Asked::NoMemory { event: _ } => Told::NoMemory,
    }
}

// An amount of the heaviest weight, paid in at once.
pub(crate) fn heavy_payment(amount: u64) -> Payment {
    Payment {
        amount,
        level: 0,
        weight: 600,
        pauses: 0,
    }
}

// An amount of half that weight, paid in at once.
pub(crate) fn light_payment(amount: u64) -> Payment {
    Payment {
        amount,
        level: 0,
        weight: 300,
        pauses: 0,
    }
}
