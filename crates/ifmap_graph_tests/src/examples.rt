//! Worked examples.
use crate::carrying::{Carried, End};
use crate::changes::{By, publish};
use crate::comparing::shows;
use crate::facts::{Fact, serial_of};
use crate::rules::Op;
use ifmap_meta::Life;
use std::alloc::Global;

// A text of a sort on the first address, published by a client.
fn fact(sort: usize, client: usize, text: usize, life: Life) -> Fact {
    Fact {
        spot: 0,
        sort,
        client,
        time: 0,
        text,
        life,
    }
}

// The serial of the session in which it is published.
fn session_of(fact: Fact) -> u64 {
    match fact.life {
        Life::Session(serial) => serial,
        Life::Forever => serial_of(fact.client),
    }
}

fn publish_one(
    alloc: Global,
    carried: &mut Carried,
    before: &[Fact],
    fact: Fact,
) -> Option<Vec<Fact>> {
    let by = By {
        client: fact.client,
        serial: session_of(fact),
        time: fact.time,
    };
    publish(alloc, carried, before, &[Op::Update(fact)], by, End::Commit)
}

fn publish_both(
    alloc: Global,
    carried: &mut Carried,
    first: Fact,
    second: Fact,
) -> Option<Vec<Fact>> {
    let facts = publish_one(alloc, carried, &[], first)?;
    publish_one(alloc, carried, &facts, second)
}

// Whether the list and the graph have the second alone.
fn has_one(alloc: Global, carried: &Carried, facts: &[Fact], second: Fact) -> bool {
    facts.len() == 1 && shows(alloc, &carried.graph, &[second])
}

fn leaves_in(alloc: Global, carried: &mut Carried, first: Fact, second: Fact) -> bool {
    match publish_both(alloc, carried, first, second) {
        Some(facts) => has_one(alloc, &*carried, &facts, second),
        None => false,
    }
}

// Whether the first address carries one element alone after two publishes of one each, which is the second.
fn leaves_the_second(alloc: Global, first: Fact, second: Fact) -> bool {
    let mut carried = Carried::new(alloc);
    leaves_in(alloc, &mut carried, first, second)
}

#[test]
fn a_single_value_of_another_client_takes_the_place(rt: HostRuntime) {
    let first = fact(0, 0, 0, Life::Session(1));
    let second = fact(0, 1, 1, Life::Session(2));
    assert!(rt; leaves_the_second(rt.alloc(), first, second));
}

#[test]
fn an_element_again_in_the_same_second_stands_once_with_its_new_lifetime(rt: HostRuntime) {
    let first = fact(1, 0, 0, Life::Session(1));
    let second = fact(1, 0, 0, Life::Forever);
    assert!(rt; leaves_the_second(rt.alloc(), first, second));
}

#[test]
fn an_element_again_in_the_same_second_stands_once_as_of_the_other_session(rt: HostRuntime) {
    let first = fact(1, 0, 0, Life::Session(1));
    let second = fact(1, 0, 0, Life::Session(3));
    assert!(rt; leaves_the_second(rt.alloc(), first, second));
}
