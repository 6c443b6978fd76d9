//! Whether what a change tells is what searches before and after it differ by, and whether a subscription
//! is as it was.
use ifmap_delta::Subscription;
use ifmap_region::Region;
use ifmap_search::Entry;
use std::alloc::{AllocError as NoMemory, Global};

// More numbers than the tests' graphs have.
const NUMBERS: u64 = 24;

fn is_same(one: &Entry, other: &Entry) -> bool {
    one.item.item() == other.item.item() && one.element.bytes() == other.element.bytes()
}

fn stands_in(entry: &Entry, entries: &[Entry]) -> bool {
    entries.iter().any(|other| is_same(entry, other))
}

// What is left to be told, after the first of it; none where it is another.
fn rest_after<'a>(told: &'a [Entry], entry: &Entry) -> Option<&'a [Entry]> {
    let (first, rest) = told.split_first()?;
    if is_same(first, entry) {
        Some(rest)
    } else {
        None
    }
}

// Whether exactly those are told, in their order, that stand in one list and not in the other.
pub(crate) fn tells_difference(told: &[Entry], one: &[Entry], other: &[Entry]) -> bool {
    let mut rest = told;
    for entry in one {
        if !stands_in(entry, other) {
            let Some(after) = rest_after(rest, entry) else {
                return false;
            };
            rest = after;
        }
    }
    rest.is_empty()
}

// The marks by number, and the size, of a subscription at some time.
#[derive(Drop)]
pub(crate) struct Snapshot {
    marks: Vec<Option<u32>>,
    size: u64,
}

fn list_marks(alloc: Global, region: &Region) -> Result<Vec<Option<u32>>, NoMemory> {
    let mut marks = Vec::new(alloc);
    for number in 0..NUMBERS {
        marks.push(region.mark(number))?;
    }
    Ok(marks)
}

pub(crate) fn take_snapshot(
    alloc: Global,
    subscription: &Subscription,
) -> Result<Snapshot, NoMemory> {
    Ok(Snapshot {
        marks: list_marks(alloc, &subscription.region)?,
        size: subscription.size,
    })
}

fn has_marks(region: &Region, marks: &[Option<u32>]) -> bool {
    let mut number: u64 = 0;
    for mark in marks {
        if region.mark(number) != *mark {
            return false;
        }
        number = number.wrapping_add(1);
    }
    true
}

// Whether the marks and the size are those of the snapshot.
pub(crate) fn is_as_in(snapshot: &Snapshot, subscription: &Subscription) -> bool {
    snapshot.size == subscription.size && has_marks(&subscription.region, &snapshot.marks)
}

// Whether a row of the region has no mark.
pub(crate) fn has_bare_row(region: &Region) -> bool {
    for number in 0..NUMBERS {
        if region.marks.get(&number) == Some(&None) {
            return true;
        }
    }
    false
}
