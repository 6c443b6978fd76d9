//! What stands after publishes and retractions, by the rules of both.
use crate::facts::{Fact, serial_of, sort_at};
use ifmap_meta::Life;
use std::alloc::{AllocError as NoMemory, Global};

// An operation of a publish.
#[derive(Clone, Copy)]
pub(crate) enum Op {
    Update(Fact),
    Delete(usize),
    // What is of a sort's name.
    DeleteNamed(usize, usize),
}

// Whether what is put takes the place of what stands.
fn is_replaced(stands: &Fact, put: &Fact) -> bool {
    if stands.spot != put.spot || stands.sort != put.sort {
        return false;
    }
    sort_at(put.sort).cardinality == "singleValue"
        || (stands.client == put.client && stands.text == put.text)
}

fn is_named(stands: &Fact, spot: usize, sort: usize) -> bool {
    stands.spot == spot && sort_at(stands.sort).name == sort_at(sort).name
}

// Whether it goes by an operation.
fn goes(stands: &Fact, op: &Op) -> bool {
    match op {
        Op::Update(put) => is_replaced(stands, put),
        Op::Delete(spot) => stands.spot == *spot,
        Op::DeleteNamed(spot, sort) => is_named(stands, *spot, *sort),
    }
}

// What stands after an operation.
fn after_one(alloc: Global, facts: &[Fact], op: &Op) -> Result<Vec<Fact>, NoMemory> {
    let mut after = Vec::new(alloc);
    for fact in facts {
        if !goes(fact, op) {
            after.push(*fact)?;
        }
    }
    if let Op::Update(put) = op {
        after.push(*put)?;
    }
    Ok(after)
}

// What stands after operations, from left to right.
pub(crate) fn after_all(alloc: Global, facts: &[Fact], ops: &[Op]) -> Result<Vec<Fact>, NoMemory> {
    let mut after = copy_of(alloc, facts)?;
    for op in ops {
        after = after_one(alloc, &after, op)?;
    }
    Ok(after)
}

// Whose attachments go: those that last as long as a client's session, or all that it published.
#[derive(Clone, Copy)]
pub(crate) enum Leaver {
    Session(usize),
    Client(usize),
}

fn leaves(stands: &Fact, leaver: Leaver) -> bool {
    match leaver {
        Leaver::Session(client) => stands.life == Life::Session(serial_of(client)),
        Leaver::Client(client) => stands.client == client,
    }
}

// What stands after a retraction.
pub(crate) fn after_leaving(
    alloc: Global,
    facts: &[Fact],
    leaver: Leaver,
) -> Result<Vec<Fact>, NoMemory> {
    let mut after = Vec::new(alloc);
    for fact in facts {
        if !leaves(fact, leaver) {
            after.push(*fact)?;
        }
    }
    Ok(after)
}

pub(crate) fn copy_of(alloc: Global, facts: &[Fact]) -> Result<Vec<Fact>, NoMemory> {
    let mut copy = Vec::new(alloc);
    for fact in facts {
        copy.push(*fact)?;
    }
    Ok(copy)
}
