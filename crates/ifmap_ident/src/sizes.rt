//! How many canonical bytes identifiers have, without memory.
ghost use Rattle.std.specs.Prelude.{◌≡◌, ◌-◌, ◌^◌, length, min};
ghost use Rattle.ifmap_ident.specs.Identifiers.{identifier_bytes};
ghost use Rattle.ifmap_ident.specs.Written.{domain_written};
ghost use Rattle.ifmap_ident.specs.declared.identifiers.Identifier.TheVariants.{IpV4, IpV6, MacAddress};

use crate::identifiers::Identifier;
use crate::optionals::{attribute_len, optional_len};
use crate::written::text_len;
use ifmap_addresses::{ip_v4_len, ip_v6_len, mac_address_len};
use ifmap_elem::{Text, TextPlace};

// How many canonical bytes an identifier has; at most 2^64 - 1.
pub(crate) fn identifier_len(identifier: &Identifier) -> u64
    ensures { result ≡ min (length (identifier_bytes identifier.now)) (2 ^ 64 - 1) }
{
    match identifier {
        Identifier::AccessRequest { name, domain } => domain_len(domain)
            .saturating_add(attribute_len("name", name))
            .saturating_add(b"<access-request/>".len() as u64),
        Identifier::Device { name } => text_len(TextPlace::Content, name).saturating_add(
            b"<device><name></name></device>".len() as u64,
        ),
        Identifier::Identity {
            name,
            kind,
            other,
            domain,
        } => domain_len(domain)
            .saturating_add(attribute_len("name", name))
            .saturating_add(optional_len("other-type-definition", other))
            .saturating_add(kind.name().len() as u64)
            .saturating_add(b"<identity type=\"\"/>".len() as u64),
        Identifier::IpV4 { value, domain } => v4_len(value, domain),
        Identifier::IpV6 { value, domain } => v6_len(value, domain),
        Identifier::MacAddress { value, domain } => mac_len(value, domain),
    }
}

fn domain_len(domain: &Text) -> u64
    ensures { result ≡ min (length (domain_written domain.now)) (2 ^ 64 - 1) }
{
    optional_len("administrative-domain", domain)
}

// How many bytes an IP address has, but for its text and its domain.
const IP_ADDRESS_LEN: u64 = 34;

fn v4_len(value: &[u8; 4], domain: &Text) -> u64
    ensures { result ≡ min (length (identifier_bytes (IpV4 value.now domain.now))) (2 ^ 64 - 1) }
{
    domain_len(domain)
        .saturating_add(ip_v4_len(value) as u64)
        .saturating_add(IP_ADDRESS_LEN)
}

fn v6_len(value: &[u16; 8], domain: &Text) -> u64
    ensures { result ≡ min (length (identifier_bytes (IpV6 value.now domain.now))) (2 ^ 64 - 1) }
{
    domain_len(domain)
        .saturating_add(ip_v6_len(value) as u64)
        .saturating_add(IP_ADDRESS_LEN)
}

fn mac_len(value: &[u8; 6], domain: &Text) -> u64
    ensures { result ≡ min (length (identifier_bytes (MacAddress value.now domain.now)))
        (2 ^ 64 - 1) }
{
    domain_len(domain)
        .saturating_add(mac_address_len(value) as u64)
        .saturating_add(b"<mac-address value=\"\"/>".len() as u64)
}
