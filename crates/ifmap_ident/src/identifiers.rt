//! Identifiers.
ghost use Rattle.std.specs.Prelude.{◌≡◌, ◌↔◌, ◌-◌, ◌<◌, ◌^◌, IsTrue, IfOk, length, min};
ghost use Rattle.std.specs.Cmp.{partial_order_from_own_ties};
ghost use Rattle.std.specs.Cmp.Rules.{comparing};
ghost use Rattle.std.specs.Ordering.{as_partial_cmp};
ghost use Rattle.std.proofs.Common.{rules};
ghost use Rattle.ifmap_elem.specs.Fit.{IsFit};
ghost use Rattle.ifmap_elem.specs.Outlines.{outline_element};
ghost use Rattle.ifmap_ident.specs.Canon.{IsAnswer, IsIdentifier};
ghost use Rattle.ifmap_ident.specs.Identifiers.{identifier_bytes, identifier_element, identifier_kind, identifier_order, same_identifier};

use crate::equality::identifiers_are_one;
use crate::errors::IdentError;
use crate::kinds::{IdentityType, Kind};
use crate::ordering::compare_identifiers;
use crate::reading::read_identifier;
use crate::sizes::identifier_len;
use crate::writing::outline_identifier;
use ifmap_elem::{Copied, Element, Equals, Outline, Text};
use std::alloc::{AllocError as NoMemory, Global};
use std::cmp::Ordering;

/// What metadata is said of: IF-MAP binding for SOAP, version 2.2, section 3.2. Its parts are in their
/// canonical form, and the empty domain is no domain.
#[derive(Debug, Drop)]
pub enum Identifier {
    /// A client's request for access to the network.
    AccessRequest {
        /// The name that it was given.
        name: Text,
        /// The administrative domain in which the name is meant.
        domain: Text,
    },
    /// A device, by a name that its owner chose.
    Device {
        /// This name.
        name: Text,
    },
    /// A user or another party. With the type `Other` and only there, `other` tells the type, and
    /// an extended identifier has the canonical bytes of an element as its name.
    Identity {
        /// The name, in the form in which its type keeps it.
        name: Text,
        /// What the name is.
        kind: IdentityType,
        /// What the type `Other` is defined as; empty with every other type.
        other: Text,
        /// The administrative domain in which the name is meant.
        domain: Text,
    },
    /// An address of version 4 of the Internet Protocol.
    IpV4 {
        /// Its four bytes.
        value: [u8; 4],
        /// The administrative domain in which the address is meant.
        domain: Text,
    },
    /// An address of version 6 of the Internet Protocol.
    IpV6 {
        /// Its eight groups.
        value: [u16; 8],
        /// The administrative domain in which the address is meant.
        domain: Text,
    },
    /// The address of a network interface.
    MacAddress {
        /// Its six bytes.
        value: [u8; 6],
        /// The administrative domain in which the address is meant.
        domain: Text,
    },
}

impl Identifier {
    /// The most canonical bytes of an identifier that is made from an element.
    pub const MOST_BYTES: u64 = 4096;

    /// The identifier that an element is. An error tells why it is none; want of memory may stand in
    /// place of any answer.
    pub fn from_element(alloc: Global, element: &Element) -> Result<Identifier, IdentError>
        ensures answer { IsAnswer element.now result }
        ensures identifier { IsFit element.now → IfOk result IsIdentifier }
    {
        match read_identifier(alloc, element) {
            Ok(identifier) => {
                if identifier.size() > Identifier::MOST_BYTES {
                    return Err(IdentError::TooLong);
                }
                Ok(identifier)
            }
            Err(error) => Err(error),
        }
    }

    /// The identifier as an outline of its element, which borrows the texts of the identifier. The one
    /// error is want of memory.
    pub fn outline(&self, alloc: Global) -> Result<Outline<'_>, NoMemory>
        ensures { IfOk result (λ outline. outline_element outline ≡ identifier_element self.now) }
    {
        outline_identifier(alloc, self)
    }

    /// The identifier as an element, whose canonical bytes are the identifier's and which is read back
    /// as the same identifier. The one error is want of memory.
    pub fn element(&self, alloc: Global) -> Result<Element, NoMemory>
        ensures { IfOk result (λ element. element ≡ identifier_element self.now) }
    {
        let outline = self.outline(alloc)?;
        outline.element(alloc)
    }

    /// Which of the five elements the identifier is. It takes no memory.
    pub fn kind(&self) -> Kind
        ensures { result ≡ identifier_kind self.now }
    {
        match self {
            Identifier::AccessRequest { .. } => Kind::AccessRequest,
            Identifier::Device { .. } => Kind::Device,
            Identifier::Identity { .. } => Kind::Identity,
            Identifier::IpV4 { .. } | Identifier::IpV6 { .. } => Kind::IpAddress,
            Identifier::MacAddress { .. } => Kind::MacAddress,
        }
    }

    /// How many canonical bytes the identifier has. Where they are more than a `u64` can tell, which
    /// no identifier of a document has, it stands at the greatest. It takes no memory.
    pub fn size(&self) -> u64
        ensures size { result ≡ min (length (identifier_bytes self.now)) (2 ^ 64 - 1) }
        ensures exact { length (identifier_bytes self.now) < 2 ^ 64
            → result ≡ length (identifier_bytes self.now) }
    {
        identifier_len(self)
    }
}

impl Copied for Identifier {
    fn copy(&self, alloc: Global) -> Result<Self, NoMemory> {
        match self {
            Identifier::AccessRequest { name, domain } => Ok(Identifier::AccessRequest {
                name: name.copy(alloc)?,
                domain: domain.copy(alloc)?,
            }),
            Identifier::Device { name } => Ok(Identifier::Device {
                name: name.copy(alloc)?,
            }),
            Identifier::Identity {
                name,
                kind,
                other,
                domain,
            } => Ok(Identifier::Identity {
                name: name.copy(alloc)?,
                kind: *kind,
                other: other.copy(alloc)?,
                domain: domain.copy(alloc)?,
            }),
            Identifier::IpV4 { value, domain } => Ok(Identifier::IpV4 {
                value: *value,
                domain: domain.copy(alloc)?,
            }),
            Identifier::IpV6 { value, domain } => Ok(Identifier::IpV6 {
                value: *value,
                domain: domain.copy(alloc)?,
            }),
            Identifier::MacAddress { value, domain } => Ok(Identifier::MacAddress {
                value: *value,
                domain: domain.copy(alloc)?,
            }),
        }
    }
}

impl Equals for Identifier {
    fn equals(&self, other: &Identifier) -> bool
        ensures value { IsTrue result ↔ (self.now ≡ other.now) }
        ensures canonical { IsTrue result ↔ (identifier_bytes self.now
            ≡ identifier_bytes other.now) }
    {
        identifiers_are_one(self, other)
    }
}

impl PartialEq for Identifier {
    ghost eq = { same_identifier };

    ghost laws = { Prim.search (comparing, rules) };

    fn eq(&self, other: &Identifier) -> bool {
        self.equals(other)
    }
}

impl Eq for Identifier {
    ghost laws = { Prim.search (comparing, rules) };
}

/// By the canonical bytes.
impl Ord for Identifier {
    ghost cmp = { identifier_order };

    ghost total = { Prim.search (comparing, rules) };

    ghost matches_partial_cmp = { Prim.search (comparing, rules) };

    ghost matches_eq = { Prim.search (comparing, rules) };

    fn cmp(&self, other: &Identifier) -> Ordering {
        compare_identifiers(self, other)
    }
}

impl PartialOrd for Identifier {
    ghost partial_cmp = { as_partial_cmp identifier_order };

    ghost laws = { partial_order_from_own_ties (Prim.search (comparing, rules))
        (Prim.search (comparing, rules)) };

    fn partial_cmp(&self, other: &Identifier) -> Option<Ordering> {
        Some(self.cmp(other))
    }
}
