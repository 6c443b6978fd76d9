//! One hall over the core, asked by passes and by desks over them.
ghost use Rattle.std.specs.Prelude.{◌≡◌, ◌≤◌};
ghost use Rattle.ifmap_desks.specs.Recalls.{Recalls};
ghost use Rattle.ifmap_dialogue.specs.Desks.{greatest_weight};
ghost use Rattle.ifmap_hall.specs.Passes.{IsOf, view_of};

use crate::events::{
    AnswerKind, Asking, BEGIN, FIRST_POLL, FIRST_PUBLISH, FIRST_RENEWAL, SECOND_SEARCH, Told,
    event_of, first, machine, repetition, tell,
};
use ifmap_desks::{CoreMachine, FitEvent, PassDesk, silent_passes_recall};
use ifmap_dialogue::Desk;
use ifmap_hall::{Hall, Pass};
use std::alloc::Global;
use std::sync::Wait;
use std::test::Fail;

// Asks the hall itself.
fn ask_hall<R: Wait>(
    rt: &R,
    alloc: Global,
    hall: &Hall<CoreMachine>,
    pass: &mut Pass<CoreMachine>,
    asking: Asking<'_>,
) -> Told
    requires hall { IsOf hall.now pass.old }
    requires light { 2824 ≤ (view_of pass.old).terms.heaviest }
    ensures hall { IsOf hall.now pass.new }
    ensures terms { (view_of pass.new).terms ≡ (view_of pass.old).terms }
{
    match event_of(alloc, asking) {
        Ok(event) => tell(hall.ask(rt, alloc, pass, FitEvent::from_event(event))),
        Err(_) => Told::NoMemory,
    }
}

// Renews the first session so often, and tells how often that was done.
fn renew_often<R: Wait>(
    rt: &R,
    alloc: Global,
    hall: &Hall<CoreMachine>,
    pass: &mut Pass<CoreMachine>,
    times: u32,
) -> u32
    requires hall { IsOf hall.now pass.old }
    requires light { 2824 ≤ (view_of pass.old).terms.heaviest }
    ensures hall { IsOf hall.now pass.new }
    ensures terms { (view_of pass.new).terms ≡ (view_of pass.old).terms }
{
    let mut renewed = 0u32;
    for _ in 0..times {
        let told = ask_hall(rt, alloc, hall, pass, first("c1", 3, FIRST_RENEWAL));
        if let Told::Done(_, AnswerKind::Renewed) = told {
            renewed = renewed.saturating_add(1);
        }
    }
    renewed
}

// The first pass publishes, and then makes 2,000 renewals, more than the hall keeps beside its base;
// then the second pass asks.
#[test]
fn a_base_goes_past_what_a_pass_has_seen(rt: HostRuntime) -> Result<(), Fail> {
    let alloc = rt.alloc();
    let (hall, mut one) = Hall::begin(alloc, machine(alloc), machine(alloc), 600_000, 300_000)?;
    let mut other = hall.split(&mut one)?;
    let begun = ask_hall(&rt, alloc, &hall, &mut one, first("c1", 1, BEGIN));
    let published = ask_hall(&rt, alloc, &hall, &mut one, first("c1", 2, FIRST_PUBLISH));
    let renewed = renew_often(&rt, alloc, &hall, &mut one, 2000);
    let second = ask_hall(&rt, alloc, &hall, &mut other, first("c2", 2, BEGIN));
    let found = ask_hall(&rt, alloc, &hall, &mut other, first("c2", 4, SECOND_SEARCH));
    hall.join(&mut one, other);
    let book = hall.close(&rt, one);
    assert!(rt; renewed == 2000);
    assert!(rt;
        [begun, published, second, found]
            == [
                Told::Done(0, AnswerKind::Began),
                Told::Done(1, AnswerKind::Published),
                Told::Done(2002, AnswerKind::Began),
                Told::Done(2003, AnswerKind::Found(1))
            ]
    );
    assert!(rt; book.from > 1000 && book.bytes <= 600_000 && book.end() == 2004);
    Ok(())
}

// Asks by a desk over the pass.
fn ask_desk<R: Wait>(
    rt: &R,
    alloc: Global,
    hall: &Hall<CoreMachine>,
    pass: &mut Pass<CoreMachine>,
    asking: Asking<'_>,
) -> Told
    requires hall { IsOf hall.now pass.old }
    requires bears { greatest_weight ≤ (view_of pass.old).terms.heaviest }
    requires recalls { ∥ Recalls (view_of pass.old) ∥₁ }
    ensures hall { IsOf hall.now pass.new }
    ensures terms { (view_of pass.new).terms ≡ (view_of pass.old).terms }
    ensures recalls { ∥ Recalls (view_of pass.new) ∥₁ }
{
    let mut desk = PassDesk::new(rt, alloc, hall, pass);
    match event_of(alloc, asking) {
        Ok(event) => tell(desk.ask(event)),
        Err(_) => Told::NoMemory,
    }
}

#[test]
fn desks_over_two_passes_ask_one_history(rt: HostRuntime) -> Result<(), Fail> {
    let alloc = rt.alloc();
    let (hall, mut one) = Hall::begin(
        alloc,
        machine(alloc),
        machine(alloc),
        500_000_000,
        80_001_000,
    )?;
    let mut other = hall.split(&mut one)?;
    silent_passes_recall();
    let told = [
        ask_desk(&rt, alloc, &hall, &mut one, first("c1", 1, BEGIN)),
        ask_desk(&rt, alloc, &hall, &mut other, first("c2", 2, BEGIN)),
        ask_desk(&rt, alloc, &hall, &mut one, first("c1", 3, FIRST_PUBLISH)),
        ask_desk(&rt, alloc, &hall, &mut other, first("c2", 4, SECOND_SEARCH)),
        ask_desk(&rt, alloc, &hall, &mut one, repetition("c1", 5, FIRST_POLL)),
    ];
    assert!(rt;
        told == [
            Told::Done(0, AnswerKind::Began),
            Told::Done(1, AnswerKind::Began),
            Told::Done(2, AnswerKind::Published),
            Told::Done(3, AnswerKind::Found(1)),
            Told::Held(4)
        ]
    );
    Ok(())
}
