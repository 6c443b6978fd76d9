//! Identifiers as outlines of elements.
ghost use Rattle.std.specs.Prelude.{◌≡◌, [], ◌∷◌, ◌++◌, codes, IfOk, OnOk};
ghost use Rattle.ifmap_elem.specs.Building.{bare_attribute, bare_element};
ghost use Rattle.ifmap_elem.specs.Outlines.{outline_element};
ghost use Rattle.ifmap_ident.specs.Identifiers.{attribute_unless_empty, domain_attributes, identifier_element};
ghost use Rattle.ifmap_ident.specs.declared.identifiers.Identifier.TheVariants.{AccessRequest, Device, Identity, IpV4, IpV6, MacAddress};

use crate::identifiers::Identifier;
use crate::kinds::IdentityType;
use ifmap_addresses::{push_ip_v4, push_ip_v6, push_mac_address};
use ifmap_elem::{Outline, OutlineAttribute, Piece, Text};
use std::alloc::{AllocError as NoMemory, Global};

// The most bytes that the text of an address has.
const IP_V4_BYTES: usize = 15;

const IP_V6_BYTES: usize = 39;

const MAC_ADDRESS_BYTES: usize = 17;

// The identifier as an outline. A list is made with room for all that it will hold.
pub(crate) fn outline_identifier<'a>(
    alloc: Global,
    identifier: &'a Identifier,
) -> Result<Outline<'a>, NoMemory>
    ensures { IfOk result (λ outline.
        outline_element outline ≡ identifier_element identifier.now) }
{
    match identifier {
        Identifier::AccessRequest { name, domain } => outline_access_request(alloc, name, domain),
        Identifier::Device { name } => outline_device(alloc, name),
        Identifier::Identity {
            name,
            kind,
            other,
            domain,
        } => outline_identity(alloc, name, *kind, other, domain),
        Identifier::IpV4 { value, domain } => outline_ip_v4(alloc, value, domain),
        Identifier::IpV6 { value, domain } => outline_ip_v6(alloc, value, domain),
        Identifier::MacAddress { value, domain } => outline_mac_address(alloc, value, domain),
    }
}

fn outline_access_request<'a>(
    alloc: Global,
    name: &'a Text,
    domain: &'a Text,
) -> Result<Outline<'a>, NoMemory>
    ensures { IfOk result (λ outline.
        outline_element outline ≡ identifier_element (AccessRequest name.now domain.now)) }
{
    let mut attributes = Vec::with_capacity(alloc, 2)?;
    push_domain(domain, &mut attributes)?;
    attributes.push(OutlineAttribute::from_str("name", name.as_str()))?;
    Ok(Outline::with_local("access-request", attributes, Vec::new(alloc)))
}

fn outline_device<'a>(alloc: Global, name: &'a Text) -> Result<Outline<'a>, NoMemory>
    ensures { IfOk result (λ outline.
        outline_element outline ≡ identifier_element (Device name.now)) }
{
    let inside = vec![in alloc; Piece::text(name)]?;
    let named = Outline::with_local("name", Vec::new(alloc), inside);
    let pieces = vec![in alloc; named.into_piece()]?;
    Ok(Outline::with_local("device", Vec::new(alloc), pieces))
}

fn outline_identity<'a>(
    alloc: Global,
    name: &'a Text,
    kind: IdentityType,
    other: &'a Text,
    domain: &'a Text,
) -> Result<Outline<'a>, NoMemory>
    ensures { IfOk result (λ outline. outline_element outline
        ≡ identifier_element (Identity name.now kind other.now domain.now)) }
{
    let mut attributes = Vec::with_capacity(alloc, 4)?;
    push_domain(domain, &mut attributes)?;
    attributes.push(OutlineAttribute::from_str("name", name.as_str()))?;
    push_unless_empty("other-type-definition", other, &mut attributes)?;
    attributes.push(OutlineAttribute::from_str("type", kind.name()))?;
    Ok(Outline::with_local("identity", attributes, Vec::new(alloc)))
}

fn outline_ip_v4<'a>(
    alloc: Global,
    value: &[u8; 4],
    domain: &'a Text,
) -> Result<Outline<'a>, NoMemory>
    ensures { IfOk result (λ outline.
        outline_element outline ≡ identifier_element (IpV4 value.now domain.now)) }
{
    let mut text = String::with_capacity(alloc, IP_V4_BYTES)?;
    push_ip_v4(value, &mut text)?;
    outline_ip_address(alloc, "IPv4", Text(text), domain)
}

fn outline_ip_v6<'a>(
    alloc: Global,
    value: &[u16; 8],
    domain: &'a Text,
) -> Result<Outline<'a>, NoMemory>
    ensures { IfOk result (λ outline.
        outline_element outline ≡ identifier_element (IpV6 value.now domain.now)) }
{
    let mut text = String::with_capacity(alloc, IP_V6_BYTES)?;
    push_ip_v6(value, &mut text)?;
    outline_ip_address(alloc, "IPv6", Text(text), domain)
}

fn outline_ip_address<'a>(
    alloc: Global,
    kind: &'a str,
    value: Text,
    domain: &'a Text,
) -> Result<Outline<'a>, NoMemory>
    ensures { IfOk result (λ outline.
        outline_element outline ≡ bare_element (codes "ip-address")
        (domain_attributes domain.now ++ (bare_attribute (codes "type") kind.now
        ∷ (bare_attribute (codes "value") value ∷ []))) []) }
{
    let mut attributes = Vec::with_capacity(alloc, 3)?;
    push_domain(domain, &mut attributes)?;
    attributes.push(OutlineAttribute::from_str("type", kind))?;
    attributes.push(OutlineAttribute::from_text("value", value))?;
    Ok(Outline::with_local("ip-address", attributes, Vec::new(alloc)))
}

fn outline_mac_address<'a>(
    alloc: Global,
    value: &[u8; 6],
    domain: &'a Text,
) -> Result<Outline<'a>, NoMemory>
    ensures { IfOk result (λ outline.
        outline_element outline ≡ identifier_element (MacAddress value.now domain.now)) }
{
    let mut text = String::with_capacity(alloc, MAC_ADDRESS_BYTES)?;
    push_mac_address(value, &mut text)?;
    let mut attributes = Vec::with_capacity(alloc, 2)?;
    push_domain(domain, &mut attributes)?;
    attributes.push(OutlineAttribute::from_text("value", Text(text)))?;
    Ok(Outline::with_local("mac-address", attributes, Vec::new(alloc)))
}

// Appends the attribute of a domain; nothing of the empty one.
fn push_domain<'a>(
    domain: &'a Text,
    attributes: &mut Vec<OutlineAttribute<'a>>,
) -> Result<(), NoMemory>
    ensures { OnOk result (attributes.new.items
        ≡ attributes.old.items ++ domain_attributes domain.now) }
{
    push_unless_empty("administrative-domain", domain, attributes)
}

// Appends an attribute; nothing where its value is empty.
fn push_unless_empty<'a>(
    local: &'a str,
    value: &'a Text,
    attributes: &mut Vec<OutlineAttribute<'a>>,
) -> Result<(), NoMemory>
    ensures { OnOk result (attributes.new.items
        ≡ attributes.old.items ++ attribute_unless_empty local.now value.now) }
{
    if value.is_empty() {
        return Ok(());
    }
    attributes.push(OutlineAttribute::from_str(local, value.as_str()))?;
    Ok(())
}
