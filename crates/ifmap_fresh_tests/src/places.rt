//! Addresses by their last bytes, and items of them.
ghost use Rattle.std.specs.Prelude.{IfOk};
ghost use Rattle.ifmap_ident.specs.Canon.{IsIdentifier};
ghost use Rattle.ifmap_ident.specs.Items.{IsCanonItem};

use ifmap_elem::Text;
use ifmap_ident::laws::mac_addresses_are_identifiers;
use ifmap_ident::{Identifier, Item};
use std::alloc::{AllocError as NoMemory, Global};

/// An address by its last byte, or the link of two.
#[derive(Clone, Copy)]
pub enum Place {
    At(u8),
    Link(u8, u8),
}

/// The MAC address `00:00:5e:00:53:..` that ends in this byte.
pub fn address_of(alloc: Global, last: u8) -> Identifier
    ensures { IsIdentifier result }
{
    mac_addresses_are_identifiers();
    Identifier::MacAddress {
        value: [0x00, 0x00, 0x5e, 0x00, 0x53, last],
        domain: Text::new(alloc),
    }
}

/// The address or the link of a place.
pub fn item_at(alloc: Global, place: Place) -> Result<Item, NoMemory>
    ensures { IfOk result IsCanonItem }
{
    match place {
        Place::At(last) => Ok(Item::One(address_of(alloc, last))),
        Place::Link(one, other) => {
            Item::pair(address_of(alloc, one), address_of(alloc, other)).ok_or(NoMemory)
        }
    }
}
