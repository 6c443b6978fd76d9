//! What the requests of a drill are made of: identifiers by numbers, links by draws, and the element
//! that links carry.
ghost use Rattle.std.specs.Prelude.{◌≡◌, ◌≢◌, ◌<◌, IfOk};
ghost use Rattle.ifmap_drill.specs.Extent.{address_count};
ghost use Rattle.ifmap_drill.specs.Parts.{address, draw_ends, link_metadata, link_of};

use ifmap_elem::{Attribute, Element, Many, Name, Text};
use ifmap_ident::laws::{bytes_tell_identifiers_apart, mac_addresses_are_identifiers};
use ifmap_ident::{Identifier, Item};
use ifmap_meta::{Cardinality, Metadata};
use rand_core::utils::NextWord;
use rand_pcg::Lcg128Xsl64;
use std::alloc::{AllocError as NoMemory, Global};

const LINK_SPACE: &str = "urn:mapd:drill";

// How many addresses there are.
const ADDRESS_COUNT: u64 = 1000;

// How far the ends of a link are apart at most.
const MOST_APART: u64 = 3;

// The MAC address of a number. It takes no memory.
pub(crate) fn address(alloc: Global, number: u64) -> Identifier
    requires { number < address_count }
    ensures { result ≡ address number }
{
    Identifier::MacAddress {
        value: [0, 0, 0x5e, 0, (number / 256) as u8, (number % 256) as u8],
        domain: Text::new(alloc),
    }
}

/// The numbers of two different addresses.
#[derive(Clone, Copy, Debug, PartialEq, Eq)]
pub struct AddressPair {
    pub first: u64,
    pub second: u64,
}

// The ends of a link by two draws.
fn draw_ends(draws: &mut Lcg128Xsl64) -> AddressPair
    ensures drawn { (result, draws.new) ≡ draw_ends draws.old }
    ensures first { result.first < address_count }
    ensures second { result.second < address_count }
    ensures apart { result.first ≢ result.second }
{
    let one = draws.next_word();
    let other = draws.next_word();
    let first = one % ADDRESS_COUNT;
    AddressPair {
        first,
        second: (first + 1 + other % MOST_APART) % ADDRESS_COUNT,
    }
}

// The link between two addresses, by two draws. It takes no memory.
pub(crate) fn draw_link(alloc: Global, draws: &mut Lcg128Xsl64) -> Item
    ensures link { result ≡ link_of (draw_ends draws.old).0 }
    ensures rest { draws.new ≡ (draw_ends draws.old).1 }
{
    let ends = draw_ends(draws);
    link_of(alloc, ends)
}

// The link of two different numbers.
fn link_of(alloc: Global, ends: AddressPair) -> Item
    requires first { ends.first < address_count }
    requires second { ends.second < address_count }
    requires apart { ends.first ≢ ends.second }
    ensures { result ≡ link_of ends }
{
    mac_addresses_are_identifiers();
    bytes_tell_identifiers_apart();
    Item::pair(address(alloc, ends.first), address(alloc, ends.second)).unwrap()
}

// The element that links carry, of which each link has one at most.
pub(crate) fn link_metadata(alloc: Global) -> Result<Metadata, NoMemory>
    ensures { IfOk result (λ made. made ≡ link_metadata) }
{
    let mut attributes = Vec::new(alloc);
    let value = Text::from_str(alloc, "singleValue")?;
    attributes.push(Attribute::with_local(alloc, "ifmap-cardinality", value)?)?;
    Ok(Metadata {
        element: Element {
            name: Name::new(alloc, LINK_SPACE, "link")?,
            attributes: Many(attributes),
            children: Many::new(alloc),
        },
        cardinality: Cardinality::Single,
    })
}
