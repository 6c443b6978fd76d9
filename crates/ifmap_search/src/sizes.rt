//! Sizes.
ghost use Rattle.std.specs.Prelude.{◌≡◌, ◌+◌, ◌-◌, ◌^◌, min};
ghost use Rattle.ifmap_search.specs.Sizes.{entries_size, entry_size, poll_size, size_beside_entries};

use crate::results::{Entry, PollItem};
use ifmap_elem::Many;

/// What an item that a poll is told counts beside its entries.
pub const SIZE_BESIDE_ENTRIES: u64 = 100;

/// The size of an item that a poll is told: 100, and the canonical bytes of the identifiers and
/// elements of its entries; at most 2^64 - 1. It takes no memory.
pub fn poll_size(item: &PollItem) -> u64
    ensures { result ≡ min (poll_size item.now) (2 ^ 64 - 1) }
{
    match item {
        PollItem::Search { entries, .. } => size_with(entries),
        PollItem::Update { entries, .. } => size_with(entries),
        PollItem::Delete { entries, .. } => size_with(entries),
        PollItem::Notify { entries, .. } => size_with(entries),
        PollItem::Error { .. } => SIZE_BESIDE_ENTRIES,
    }
}

fn size_with(entries: &Many<Entry>) -> u64
    ensures { result ≡ min (size_beside_entries + entries_size entries.now) (2 ^ 64 - 1) }
{
    let mut size = SIZE_BESIDE_ENTRIES;
    for entry in entries.as_slice() {
        size = size.saturating_add(entry_size(entry));
    }
    size
}

#[tactic(auto, unfolding(crate::specs::Sizes::entry_size))]
fn entry_size(entry: &Entry) -> u64
    ensures { result ≡ min (entry_size entry.now) (2 ^ 64 - 1) }
{
    entry.item.size().saturating_add(entry.element.size())
}
