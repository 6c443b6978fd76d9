//! Consecutive entries on one item, as one `resultItem`.
ghost use Rattle.std.specs.Prelude.{◌≡◌, ◌≤◌, ◌∷◌, ◌++◌, [], length, map, IfOk, OnOk};
ghost use Rattle.ifmap_elem.specs.Outlines.{outline_child, outline_element};
ghost use Rattle.ifmap_ident.specs.Identifiers.{identifier_element};
ghost use Rattle.ifmap_ident.specs.Items.{identifiers_of, same_item};
ghost use Rattle.ifmap_elem.specs.Building.{as_children};
ghost use Rattle.ifmap_replies.specs.Results.{entry_children, run_element};
ghost use Rattle.ifmap_replies.specs.Runs.{entry_elements, run_length, run_on};

use ifmap_elem::{Many, Outline, Piece};
use ifmap_ident::{Item, SharedItem};
use ifmap_meta::SharedElement;
use ifmap_search::Entry;
use std::alloc::{AllocError as NoMemory, Global};

/// An item, and elements on it in order.
#[derive(Drop)]
pub struct Run {
    pub item: SharedItem,
    pub elements: Many<SharedElement>,
}

// The `resultItem`s of entries, at most one for each. An entry is compared with the one before it
// alone.
pub(crate) fn entry_pieces<'a>(
    alloc: Global,
    entries: &'a [Entry],
) -> Result<Vec<Piece<'a>>, NoMemory>
    ensures { IfOk result (λ pieces.
        map outline_child pieces.items ≡ entry_children entries.now) }
{
    let mut pieces = Vec::with_capacity(alloc, entries.len())?;
    let mut rest = entries;
    while let Some((first, others)) = rest.split_first() {
        let length = run_length(first, others);
        let run = run_outline(alloc, first, &others[..length])?;
        pieces.push(run.into_piece())?;
        rest = &others[length..];
    }
    Ok(pieces)
}

// How many entries go on with the run of the one before them.
fn run_length(first: &Entry, others: &[Entry]) -> usize
    ensures value { result ≡ run_length first.now others.now }
    ensures within { result ≤ length others.now }
{
    let mut last = first;
    let mut length = 0;
    for entry in others {
        if !is_on_one_item(last, entry) {
            break;
        }
        last = entry;
        length += 1;
    }
    length
}

fn is_on_one_item(one: &Entry, other: &Entry) -> bool
    ensures { result ≡ same_item one.now.item other.now.item }
{
    one.item.item() == other.item.item()
}

// The `resultItem` of an entry and of those after it on its item.
fn run_outline<'a>(
    alloc: Global,
    first: &'a Entry,
    others: &'a [Entry],
) -> Result<Outline<'a>, NoMemory>
    ensures { IfOk result (λ outline. outline_element outline ≡ run_element
        (run_on first.now.item (first.now.element ∷ entry_elements others.now))) }
{
    let elements = element_pieces(alloc, first, others)?;
    let metadata = Outline::with_local("metadata", Vec::new(alloc), elements);
    let pieces = item_pieces(alloc, first.item.item(), metadata)?;
    Ok(Outline::with_local("resultItem", Vec::new(alloc), pieces))
}

// The elements of an entry and of those after it, which the entries hold.
fn element_pieces<'a>(
    alloc: Global,
    first: &'a Entry,
    others: &'a [Entry],
) -> Result<Vec<Piece<'a>>, NoMemory>
    ensures { IfOk result (λ pieces. map outline_child pieces.items
        ≡ as_children (first.now.element ∷ entry_elements others.now)) }
{
    let mut pieces = Vec::with_capacity(alloc, others.len().saturating_add(1))?;
    push_element(first, &mut pieces)?;
    for entry in others {
        push_element(entry, &mut pieces)?;
    }
    Ok(pieces)
}

// Puts an entry's element after the others.
fn push_element<'a>(entry: &'a Entry, pieces: &mut Vec<Piece<'a>>) -> Result<(), NoMemory>
    ensures { OnOk result (map outline_child pieces.new.items
        ≡ map outline_child pieces.old.items ++ as_children (entry.now.element ∷ [])) }
{
    pieces.push(Piece::of_element(entry.element.element()))?;
    Ok(())
}

// The identifiers of an item, and `metadata` after them.
fn item_pieces<'a>(
    alloc: Global,
    item: &'a Item,
    metadata: Outline<'a>,
) -> Result<Vec<Piece<'a>>, NoMemory>
    ensures { IfOk result (λ pieces. map outline_child pieces.items
        ≡ as_children (map identifier_element (identifiers_of item.now)
        ++ outline_element metadata.entry ∷ [])) }
{
    match item {
        Item::One(identifier) => {
            let identifier = identifier.outline(alloc)?;
            Ok(vec![in alloc; identifier.into_piece(), metadata.into_piece()]?)
        }
        Item::Pair(first, second) => {
            let first = first.outline(alloc)?;
            let second = second.outline(alloc)?;
            Ok(vec![in alloc;
                first.into_piece(),
                second.into_piece(),
                metadata.into_piece(),
            ]?)
        }
    }
}
