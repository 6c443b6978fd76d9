//! Random publishes and retractions, one after the other, beside a plain list.
use crate::carrying::{Carried, End};
use crate::changes::{publish, retract};
use crate::facts::Fact;
use crate::rolling::{Mix, roll_by, roll_end, roll_leaver, roll_ops};
use crate::rules::Leaver;
use ifmap_publish_tests::dice::Dice;
use std::alloc::Global;

fn try_publish(
    alloc: Global,
    carried: &mut Carried,
    dice: &mut Dice,
    facts: &[Fact],
    mix: Mix,
) -> Option<Vec<Fact>> {
    let by = roll_by(dice);
    let end = roll_end(dice);
    let ops = roll_ops(alloc, dice, by, mix).ok()?;
    publish(alloc, carried, facts, &ops, by, end)
}

fn try_retraction(
    alloc: Global,
    carried: &mut Carried,
    dice: &mut Dice,
    facts: &[Fact],
) -> Option<Vec<Fact>> {
    let leaver = roll_leaver(dice);
    let end = roll_end(dice);
    retract(alloc, carried, facts, leaver, end)
}

// A publish, or one time of sixteen a retraction.
fn try_change(
    alloc: Global,
    carried: &mut Carried,
    dice: &mut Dice,
    facts: &[Fact],
    mix: Mix,
) -> Option<Vec<Fact>> {
    if dice.roll(16) == 0 {
        try_retraction(alloc, carried, dice, facts)
    } else {
        try_publish(alloc, carried, dice, facts, mix)
    }
}

// Whether what stands is known: it takes the place of what stood.
fn take_over(facts: &mut Vec<Fact>, after: Option<Vec<Fact>>) -> bool {
    match after {
        Some(after) => {
            *facts = after;
            true
        }
        None => false,
    }
}

// How many of so many changes went before the graph and the list said something else.
fn count_changes(
    alloc: Global,
    carried: &mut Carried,
    dice: &mut Dice,
    facts: &mut Vec<Fact>,
    mix: Mix,
    count: u64,
) -> u64 {
    for step in 0..count {
        let after = try_change(alloc, carried, dice, &*facts, mix);
        if !take_over(facts, after) {
            return step;
        }
    }
    count
}

// All that a client published goes.
fn purge(alloc: Global, carried: &mut Carried, facts: &mut Vec<Fact>, client: usize) -> bool {
    let after = retract(alloc, carried, &*facts, Leaver::Client(client), End::Commit);
    take_over(facts, after)
}

// Whether nothing stands once all that both clients published went.
fn is_purged(alloc: Global, carried: &mut Carried, facts: &mut Vec<Fact>) -> bool {
    purge(alloc, carried, facts, 0) && purge(alloc, carried, facts, 1) && facts.is_empty()
}

// How many changes went as wanted; none where something is left at the end.
fn count_in_walk(
    alloc: Global,
    carried: &mut Carried,
    facts: &mut Vec<Fact>,
    mix: Mix,
    count: u64,
) -> u64 {
    let mut dice = Dice { state: 20_261_128 };
    let same = count_changes(alloc, carried, &mut dice, facts, mix, count);
    if same == count && !is_purged(alloc, carried, facts) {
        return 0;
    }
    same
}

// The same from an empty graph.
fn walk(alloc: Global, mix: Mix, count: u64) -> u64 {
    let mut carried = Carried::new(alloc);
    let mut facts = Vec::new(alloc);
    count_in_walk(alloc, &mut carried, &mut facts, mix, count)
}

// Few elements on each of six places.
static FEW: Mix = Mix {
    spots: 6,
    texts: 3,
    ops: 4,
    deletes: 3,
};

// Many on one place.
static MANY: Mix = Mix {
    spots: 1,
    texts: 80,
    ops: 120,
    deletes: 60,
};

#[test]
fn a_thousand_changes_leave_what_a_plain_list_says(rt: HostRuntime) {
    assert_eq!(rt; walk(rt.alloc(), FEW, 1000), 1000);
}

#[test]
fn changes_of_an_item_that_carries_much_leave_what_a_plain_list_says(rt: HostRuntime) {
    assert_eq!(rt; walk(rt.alloc(), MANY, 16), 16);
}
