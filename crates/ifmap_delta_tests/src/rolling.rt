//! Random operations and searches.
use crate::ops::{Deed, Op};
use crate::sought::Sought;
use ifmap_fresh_tests::places::Place;
use ifmap_ident::Kind;
use ifmap_publish_tests::dice::Dice;
use std::alloc::{AllocError as NoMemory, Global};

// The digits of addresses and names.
static DIGITS: [u8; 9] = [1, 2, 3, 4, 5, 6, 7, 8, 9];

fn digit_at(place: u64) -> u8 {
    match DIGITS.get(place as usize) {
        Some(digit) => *digit,
        None => 1,
    }
}

// The lesser of two numbers, so that much is near the start.
fn roll_number(dice: &mut Dice) -> u8 {
    let one = digit_at(dice.roll(9));
    let other = digit_at(dice.roll(9));
    if one < other { one } else { other }
}

fn roll_place(dice: &mut Dice) -> Place {
    let one = roll_number(dice);
    let other = roll_number(dice);
    if one == other {
        Place::At(one)
    } else {
        Place::Link(one, other)
    }
}

// An operation that puts an element, mostly, or any.
fn roll_deed(dice: &mut Dice, sides: u64) -> Deed {
    match dice.roll(sides) {
        0 => Deed::PutForever,
        1 => Deed::PutSingle,
        6 | 7 => Deed::Take,
        8 | 9 => Deed::TakeAll,
        _ => Deed::Put,
    }
}

fn roll_name(dice: &mut Dice) -> &'static str {
    match dice.roll(3) {
        0 => "a",
        1 => "b",
        _ => "c",
    }
}

fn roll_text(dice: &mut Dice) -> &'static str {
    if dice.roll(2) == 0 { "x" } else { "y" }
}

fn roll_op(dice: &mut Dice, sides: u64) -> Op {
    let deed = roll_deed(dice, sides);
    let place = roll_place(dice);
    let name = roll_name(dice);
    Op(deed, place, name, roll_text(dice))
}

// So many operations, by dice with so many sides: with six, each puts an element.
pub(crate) fn roll_ops(
    alloc: Global,
    dice: &mut Dice,
    (count, sides): (u64, u64),
) -> Result<Vec<Op>, NoMemory> {
    let mut ops = Vec::new(alloc);
    for _ in 0..count {
        ops.push(roll_op(dice, sides))?;
    }
    Ok(ops)
}

fn roll_filter(dice: &mut Dice) -> Option<&'static str> {
    match dice.roll(6) {
        0 => Some("u:a"),
        1 => Some("u:b or u:c"),
        2 => Some("u:a[@ifmap-cardinality='singleValue']"),
        _ => None,
    }
}

fn roll_terminal(dice: &mut Dice) -> Option<Kind> {
    match dice.roll(8) {
        0 => Some(Kind::MacAddress),
        1 | 2 | 3 => Some(Kind::Device),
        _ => None,
    }
}

fn roll_depth(dice: &mut Dice) -> u32 {
    match dice.roll(6) {
        0 => 0,
        1 => 1,
        2 => 2,
        3 => 3,
        4 => 4,
        _ => 5,
    }
}

pub(crate) fn roll_sought(dice: &mut Dice) -> Sought {
    Sought {
        max_depth: roll_depth(dice),
        match_links: roll_filter(dice),
        result_filter: roll_filter(dice),
        terminal: roll_terminal(dice),
    }
}
