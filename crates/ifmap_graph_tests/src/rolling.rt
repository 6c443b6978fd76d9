//! Random operations.
use crate::carrying::End;
use crate::changes::By;
use crate::facts::{Fact, serial_of};
use crate::rules::{Leaver, Op};
use ifmap_meta::Life;
use ifmap_publish_tests::dice::Dice;
use std::alloc::{AllocError as NoMemory, Global};

// What random publishes are made of.
#[derive(Clone, Copy)]
pub(crate) struct Mix {
    // on how many places, and with how many texts
    pub(crate) spots: u64,
    pub(crate) texts: u64,
    // fewer operations than these, and one of so many deletes
    pub(crate) ops: u64,
    pub(crate) deletes: u64,
}

pub(crate) fn roll_by(dice: &mut Dice) -> By {
    let client = dice.roll(2) as usize;
    let time = dice.roll(3) as usize;
    By {
        client,
        serial: serial_of(client),
        time,
    }
}

pub(crate) fn roll_end(dice: &mut Dice) -> End {
    match dice.roll(6) {
        0 | 1 => End::Commit,
        2 | 3 => End::Settle,
        4 => End::Undo,
        _ => End::Forget,
    }
}

pub(crate) fn roll_leaver(dice: &mut Dice) -> Leaver {
    match dice.roll(4) {
        0 => Leaver::Session(0),
        1 => Leaver::Session(1),
        2 => Leaver::Client(0),
        _ => Leaver::Client(1),
    }
}

// One of four stays beyond its session.
fn roll_life(dice: &mut Dice, by: By) -> Life {
    if dice.roll(4) == 0 {
        Life::Forever
    } else {
        Life::Session(serial_of(by.client))
    }
}

fn roll_fact(dice: &mut Dice, by: By, mix: Mix) -> Fact {
    let spot = dice.roll(mix.spots) as usize;
    let sort = dice.roll(3) as usize;
    let text = dice.roll(mix.texts) as usize;
    Fact {
        spot,
        sort,
        client: by.client,
        time: by.time,
        text,
        life: roll_life(dice, by),
    }
}

fn roll_delete(dice: &mut Dice, mix: Mix) -> Op {
    let spot = dice.roll(mix.spots) as usize;
    match dice.roll(4) {
        0 => Op::Delete(spot),
        sort => Op::DeleteNamed(spot, sort as usize),
    }
}

fn roll_op(dice: &mut Dice, by: By, mix: Mix) -> Op {
    if dice.roll(mix.deletes) == 0 {
        roll_delete(dice, mix)
    } else {
        Op::Update(roll_fact(dice, by, mix))
    }
}

// The operations of a publish.
pub(crate) fn roll_ops(
    alloc: Global,
    dice: &mut Dice,
    by: By,
    mix: Mix,
) -> Result<Vec<Op>, NoMemory> {
    let mut ops = Vec::new(alloc);
    for _ in 0..dice.roll(mix.ops) {
        ops.push(roll_op(dice, by, mix))?;
    }
    Ok(ops)
}
