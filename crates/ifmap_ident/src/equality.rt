//! Whether two identifiers are one, without memory.
ghost use Rattle.std.specs.Prelude.{◌≡◌, ◌↔◌, IsTrue};
ghost use Rattle.ifmap_addresses.specs.Values.{AreBelow};
ghost use Rattle.ifmap_ident.specs.Identifiers.{identifier_bytes};
ghost use Rattle.ifmap_ident.specs.Written.{IsTyped};
ghost use Rattle.ifmap_ident.specs.declared.identifiers.Identifier.TheVariants.{AccessRequest, Device, Identity, IpV4, IpV6, MacAddress};

use crate::identifiers::Identifier;
use crate::kinds::IdentityType;
use ifmap_elem::{Equals, Text};

// Whether two identifiers are one, which their canonical bytes tell.
pub(crate) fn identifiers_are_one(one: &Identifier, other: &Identifier) -> bool
    ensures value { IsTrue result ↔ (one.now ≡ other.now) }
    ensures canonical { IsTrue result ↔ (identifier_bytes one.now ≡ identifier_bytes other.now) }
{
    is_typed(one);
    is_typed(other);
    have_same_parts(one, other)
}

// An address has its number of parts, each within its range, as its type says.
fn is_typed(identifier: &Identifier)
    ensures { IsTyped identifier.now }
{
    match identifier {
        Identifier::IpV4 { value, .. } => are_four_bytes(value),
        Identifier::IpV6 { value, .. } => are_eight_groups(value),
        Identifier::MacAddress { value, .. } => are_six_bytes(value),
        _ => {}
    }
}

// The next three do nothing: that their value is looked at makes the types of its numbers known.
fn are_four_bytes(value: &[u8; 4])
    ensures { AreBelow 256 4 value.now }
{
    let _ = value.first();
}

fn are_eight_groups(value: &[u16; 8])
    ensures { AreBelow 65536 8 value.now }
{
    let _ = value.first();
}

fn are_six_bytes(value: &[u8; 6])
    ensures { AreBelow 256 6 value.now }
{
    let _ = value.first();
}

fn have_same_parts(one: &Identifier, other: &Identifier) -> bool
    ensures { IsTrue result ↔ (one.now ≡ other.now) }
{
    match one {
        Identifier::AccessRequest { name, domain } => is_access_request(other, name, domain),
        Identifier::Device { name } => is_device(other, name),
        Identifier::Identity {
            name,
            kind,
            other: definition,
            domain,
        } => is_identity(other, name, *kind, definition, domain),
        Identifier::IpV4 { value, domain } => is_v4(other, value, domain),
        Identifier::IpV6 { value, domain } => is_v6(other, value, domain),
        Identifier::MacAddress { value, domain } => is_mac(other, value, domain),
    }
}

// Whether the identifier is the one with these parts; so the next five.
fn is_access_request(identifier: &Identifier, name: &Text, domain: &Text) -> bool
    ensures { IsTrue result ↔ (AccessRequest name.now domain.now ≡ identifier.now) }
{
    match identifier {
        Identifier::AccessRequest { name: n, domain: d } => name.equals(n) && domain.equals(d),
        _ => false,
    }
}

fn is_device(identifier: &Identifier, name: &Text) -> bool
    ensures { IsTrue result ↔ (Device name.now ≡ identifier.now) }
{
    match identifier {
        Identifier::Device { name: n } => name.equals(n),
        _ => false,
    }
}

fn is_identity(
    identifier: &Identifier,
    name: &Text,
    kind: IdentityType,
    definition: &Text,
    domain: &Text,
) -> bool
    ensures { IsTrue result ↔ (Identity name.now kind definition.now domain.now
        ≡ identifier.now) }
{
    match identifier {
        Identifier::Identity {
            name: n,
            kind: k,
            other: o,
            domain: d,
        } => name.equals(n) && kind == *k && definition.equals(o) && domain.equals(d),
        _ => false,
    }
}

fn is_v4(identifier: &Identifier, value: &[u8; 4], domain: &Text) -> bool
    ensures { IsTrue result ↔ (IpV4 value.now domain.now ≡ identifier.now) }
{
    match identifier {
        Identifier::IpV4 {
            value: v,
            domain: d,
        } => value == v && domain.equals(d),
        _ => false,
    }
}

fn is_v6(identifier: &Identifier, value: &[u16; 8], domain: &Text) -> bool
    ensures { IsTrue result ↔ (IpV6 value.now domain.now ≡ identifier.now) }
{
    match identifier {
        Identifier::IpV6 {
            value: v,
            domain: d,
        } => value == v && domain.equals(d),
        _ => false,
    }
}

fn is_mac(identifier: &Identifier, value: &[u8; 6], domain: &Text) -> bool
    ensures { IsTrue result ↔ (MacAddress value.now domain.now ≡ identifier.now) }
{
    match identifier {
        Identifier::MacAddress {
            value: v,
            domain: d,
        } => value == v && domain.equals(d),
        _ => false,
    }
}
