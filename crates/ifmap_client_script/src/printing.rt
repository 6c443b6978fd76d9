//! Sets as they are printed.
ghost use Rattle.std.specs.Prelude.{◌≡◌, ◌++◌, ◌∷◌, [], map, option_copied, IfOk, OnOk};
ghost use Rattle.ifmap_ident.specs.Identifiers.{identifier_element};
ghost use Rattle.ifmap_ident.specs.Items.{identifiers_of};
ghost use Rattle.ifmap_elem.specs.Building.{as_children};
ghost use Rattle.ifmap_replies.specs.Results.{run_element};
ghost use Rattle.ifmap_replies.specs.Runs.{run_on};
ghost use Rattle.ifmap_client_script.specs.Printing.{entry_line, entries_text, set_text};

use ifmap_elem::{Child, Copied, Element, Many, canonical};
use ifmap_ident::Item;
use ifmap_search::Entry;
use std::alloc::{AllocError as NoMemory, Global};

/// A set as it is printed: the number of its entries on a line, and each entry on a line of its own.
pub fn set_text(alloc: Global, set: Option<&Many<Entry>>) -> Result<Vec<u8>, NoMemory>
    ensures { IfOk result (λ text. text.items ≡ set_text (option_copied set.entry)) }
{
    match set {
        Some(set) => entries_text(alloc, set.as_slice()),
        None => b"none\n".to_vec(alloc),
    }
}

fn entries_text(alloc: Global, entries: &[Entry]) -> Result<Vec<u8>, NoMemory>
    ensures { IfOk result (λ text. text.items ≡ entries_text entries.now) }
{
    let count = entries.len();
    let mut text = format!(in alloc; "#{count}\n")?.into_bytes();
    for entry in entries {
        push_entry(alloc, entry, &mut text)?;
    }
    Ok(text)
}

// Adds the line of an entry.
#[tactic(auto, unfolding(crate::specs::Printing::entry_line))]
fn push_entry(alloc: Global, entry: &Entry, text: &mut Vec<u8>) -> Result<(), NoMemory>
    ensures { OnOk result (text.new.items ≡ text.old.items ++ entry_line entry.now) }
{
    let element = entry_element(alloc, entry)?;
    let bytes = canonical(alloc, &element)?;
    text.extend_from_slice(bytes.as_slice())?;
    text.push(b'\n')?;
    Ok(())
}

// The `resultItem` of one entry.
fn entry_element(alloc: Global, entry: &Entry) -> Result<Element, NoMemory>
    ensures { IfOk result (λ element.
        element ≡ run_element (run_on entry.now.item (entry.now.element ∷ []))) }
{
    let mut elements = Vec::new(alloc);
    elements.push(Child::Element(entry.element.element().copy(alloc)?))?;
    let metadata = Element::with_local(alloc, "metadata", Vec::new(alloc), elements)?;
    let mut children = identifier_children(alloc, entry.item.item())?;
    children.push(Child::Element(metadata))?;
    Element::with_local(alloc, "resultItem", Vec::new(alloc), children)
}

fn identifier_children(alloc: Global, item: &Item) -> Result<Vec<Child>, NoMemory>
    ensures { IfOk result (λ children. children.items
        ≡ as_children (map identifier_element (identifiers_of item.now))) }
{
    match item {
        Item::One(identifier) => Ok(vec![in alloc; Child::Element(identifier.element(alloc)?)]?),
        Item::Pair(first, second) => Ok(vec![in alloc;
            Child::Element(first.element(alloc)?),
            Child::Element(second.element(alloc)?),
        ]?),
    }
}
