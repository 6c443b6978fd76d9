//! How identifiers compare by their canonical bytes, without memory.
ghost use Rattle.std.specs.Prelude.{◌≡◌};
ghost use Rattle.std.specs.Ordering.{nat_cmp};
ghost use Rattle.ifmap_ident.specs.Identifiers.{identifier_kind, identifier_order};
ghost use Rattle.ifmap_ident.specs.Kinds.{identity_type_name};
ghost use Rattle.ifmap_ident.specs.Leading.{FrontsCompare};
ghost use Rattle.ifmap_ident.specs.Written.{closed_text, kind_rank};
ghost use Rattle.ifmap_ident.specs.declared.identifiers.Identifier.TheVariants.{AccessRequest, Device, Identity, IpV4, IpV6, MacAddress};
ghost use Rattle.ifmap_ident.specs.declared.kinds.Kind;
ghost use Rattle.ifmap_elem.specs.declared.escaping.TextPlace.TheVariants.{Value};

use crate::identifiers::Identifier;
use crate::kinds::{IdentityType, Kind};
use crate::optionals::optional_order;
use crate::written::{bytes_order, text_order};
use ifmap_addresses::{ip_v4_order, ip_v6_order, mac_address_order};
use ifmap_elem::{Text, TextPlace};
use std::cmp::Ordering;

// How two identifiers compare by their canonical bytes: by the names of their elements, and then
// part by part.
pub(crate) fn compare_identifiers(one: &Identifier, other: &Identifier) -> Ordering
    ensures { result ≡ identifier_order one.now other.now }
{
    kind_order(one.kind(), other.kind()).then(order_in_kind(one, other))
}

fn kind_order(one: Kind, other: Kind) -> Ordering
    ensures { result ≡ nat_cmp (kind_rank one) (kind_rank other) }
{
    rank_of(one).cmp(&rank_of(other))
}

// The place of a kind among the names of the elements.
fn rank_of(kind: Kind) -> u8
    ensures { result ≡ kind_rank kind }
{
    match kind {
        Kind::AccessRequest => 0,
        Kind::Device => 1,
        Kind::Identity => 2,
        Kind::IpAddress => 3,
        Kind::MacAddress => 4,
    }
}

// The parts of an identity.
#[derive(Clone, Copy)]
struct IdentityParts<'a> {
    name: &'a Text,
    kind: IdentityType,
    definition: &'a Text,
    domain: &'a Text,
}

// How two identifiers of one kind compare.
fn order_in_kind(one: &Identifier, other: &Identifier) -> Ordering
    ensures { identifier_kind one.now ≡ identifier_kind other.now
        → result ≡ identifier_order one.now other.now }
{
    match one {
        Identifier::AccessRequest { name, domain } => order_of_access_request(name, domain, other),
        Identifier::Device { name } => order_of_device(name, other),
        Identifier::Identity {
            name,
            kind,
            other: definition,
            domain,
        } => order_of_identity(
            IdentityParts {
                name,
                kind: *kind,
                definition,
                domain,
            },
            other,
        ),
        Identifier::IpV4 { value, domain } => order_of_v4(value, domain, other),
        Identifier::IpV6 { value, domain } => order_of_v6(value, domain, other),
        Identifier::MacAddress { value, domain } => order_of_mac(value, domain, other),
    }
}

// How this identifier and another of its kind compare; so the next five.
fn order_of_access_request(name: &Text, domain: &Text, other: &Identifier) -> Ordering
    ensures { identifier_kind other.now ≡ Kind.AccessRequest
        → result ≡ identifier_order (AccessRequest name.now domain.now) other.now }
{
    match other {
        Identifier::AccessRequest {
            name: other_name,
            domain: other_domain,
        } => optional_order(domain, other_domain).then(text_order(
            TextPlace::Value,
            name,
            other_name,
        )),
        _ => Ordering::Equal,
    }
}

fn order_of_device(name: &Text, other: &Identifier) -> Ordering
    ensures { identifier_kind other.now ≡ Kind.Device
        → result ≡ identifier_order (Device name.now) other.now }
{
    match other {
        Identifier::Device { name: other_name } => text_order(TextPlace::Content, name, other_name),
        _ => Ordering::Equal,
    }
}

fn order_of_identity(one: IdentityParts<'_>, other: &Identifier) -> Ordering
    ensures { identifier_kind other.now ≡ Kind.Identity
        → result ≡ identifier_order (Identity one.entry.name.now one.entry.kind
        one.entry.definition.now one.entry.domain.now) other.now }
{
    match other {
        Identifier::Identity {
            name,
            kind,
            other: definition,
            domain,
        } => optional_order(one.domain, domain)
            .then(text_order(TextPlace::Value, one.name, name))
            .then(optional_order(one.definition, definition))
            .then(type_order(one.kind, *kind)),
        _ => Ordering::Equal,
    }
}

fn order_of_v4(value: &[u8; 4], domain: &Text, other: &Identifier) -> Ordering
    ensures { identifier_kind other.now ≡ Kind.IpAddress
        → result ≡ identifier_order (IpV4 value.now domain.now) other.now }
{
    match other {
        Identifier::IpV4 {
            value: other_value,
            domain: other_domain,
        } => v4_order(value, domain, other_value, other_domain),
        Identifier::IpV6 {
            value: _,
            domain: other_domain,
        } => optional_order(domain, other_domain).then(Ordering::Less),
        _ => Ordering::Equal,
    }
}

fn order_of_v6(value: &[u16; 8], domain: &Text, other: &Identifier) -> Ordering
    ensures { identifier_kind other.now ≡ Kind.IpAddress
        → result ≡ identifier_order (IpV6 value.now domain.now) other.now }
{
    match other {
        Identifier::IpV4 {
            value: _,
            domain: other_domain,
        } => optional_order(domain, other_domain).then(Ordering::Greater),
        Identifier::IpV6 {
            value: other_value,
            domain: other_domain,
        } => v6_order(value, domain, other_value, other_domain),
        _ => Ordering::Equal,
    }
}

fn order_of_mac(value: &[u8; 6], domain: &Text, other: &Identifier) -> Ordering
    ensures { identifier_kind other.now ≡ Kind.MacAddress
        → result ≡ identifier_order (MacAddress value.now domain.now) other.now }
{
    match other {
        Identifier::MacAddress {
            value: other_value,
            domain: other_domain,
        } => mac_order(value, domain, other_value, other_domain),
        _ => Ordering::Equal,
    }
}

// How the types of two identities compare as they are written.
fn type_order(one: IdentityType, other: IdentityType) -> Ordering
    ensures { FrontsCompare result (closed_text Value (identity_type_name one))
        (closed_text Value (identity_type_name other)) }
{
    bytes_order(
        TextPlace::Value,
        one.name().as_bytes(),
        other.name().as_bytes(),
    )
}

fn v4_order(value: &[u8; 4], domain: &Text, other_value: &[u8; 4], other_domain: &Text) -> Ordering
    ensures { result ≡ identifier_order (IpV4 value.now domain.now)
        (IpV4 other_value.now other_domain.now) }
{
    optional_order(domain, other_domain).then(ip_v4_order(value, other_value))
}

fn v6_order(
    value: &[u16; 8],
    domain: &Text,
    other_value: &[u16; 8],
    other_domain: &Text,
) -> Ordering
    ensures { result ≡ identifier_order (IpV6 value.now domain.now)
        (IpV6 other_value.now other_domain.now) }
{
    optional_order(domain, other_domain).then(ip_v6_order(value, other_value))
}

fn mac_order(value: &[u8; 6], domain: &Text, other_value: &[u8; 6], other_domain: &Text) -> Ordering
    ensures { result ≡ identifier_order (MacAddress value.now domain.now)
        (MacAddress other_value.now other_domain.now) }
{
    optional_order(domain, other_domain).then(mac_address_order(value, other_value))
}
