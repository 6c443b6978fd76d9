//! The items of identifiers that a view may lack.
ghost use Rattle.std.specs.Prelude.{◌≡◌, ◌++◌, OnErr, OnOk, IfOk, option_copied};
ghost use Rattle.ifmap_fresh.specs.Items.{item_alone, pair_at};

use ifmap_elem::Copied;
use ifmap_ident::{Identifier, Item};
use std::alloc::{AllocError as NoMemory, Global};

/// Appends the item of an identifier alone, where there is one. The one error is want of memory, and
/// leaves the list as it was.
pub fn add_alone(
    alloc: Global,
    id: Option<&Identifier>,
    items: &mut Vec<Item>,
) -> Result<(), NoMemory>
    ensures added { OnOk result
        (items.new.items ≡ items.old.items ++ item_alone (option_copied id.entry)) }
    ensures unchanged { OnErr result (items.new.items ≡ items.old.items) }
{
    if let Some(id) = id {
        items.push(Item::One(id.copy(alloc)?))?;
    }
    Ok(())
}

/// The item of two identifiers, where there are both and they differ. The one error is want of memory.
pub fn pair_at(
    alloc: Global,
    a: Option<&Identifier>,
    b: Option<&Identifier>,
) -> Result<Option<Item>, NoMemory>
    ensures { IfOk result (λ item. item ≡ pair_at (option_copied a.entry) (option_copied b.entry)) }
{
    match (a, b) {
        (Some(a), Some(b)) => Ok(Item::pair(a.copy(alloc)?, b.copy(alloc)?)),
        _ => Ok(None),
    }
}
