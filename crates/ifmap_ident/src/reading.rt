//! Identifiers, read from their elements.
ghost use Rattle.std.specs.Prelude.{◌≡◌, ℕ, List, IfSome, IsNone};
ghost use Rattle.ifmap_ident.specs.Canon.{HoldsName, IsDevice};
ghost use Rattle.ifmap_ident.specs.Meaning.{ArePartsOf, IsMeaning, IsVersion, version_name};
ghost use Rattle.ifmap_ident.specs.declared.reading.Version.{Version};
ghost use Rattle.ifmap_ident.specs.declared.kinds.Kind.TheVariants as kinds;

use crate::errors::IdentError;
use crate::identifiers::Identifier;
use crate::identities::read_identity;
use crate::kinds::Kind;
use crate::parts::{copy_domain, has_only, is_blank_inside, only_solid_child, only_text, value_of};
use ifmap_addresses::{ip_v4_of, ip_v6_of, mac_address_of};
use ifmap_elem::{Child, Copied, Element, Text};
use std::alloc::Global;

// The identifier that an element means, however long it is.
pub(crate) fn read_identifier(alloc: Global, element: &Element) -> Result<Identifier, IdentError>
    ensures { IsMeaning element.now result }
{
    let Some(kind) = Kind::of_name(&element.name) else {
        return Err(IdentError::WrongKind);
    };
    if !has_only(kind, element) {
        return Err(IdentError::Invalid);
    }
    read_parts(alloc, kind, element)
}

fn read_parts(alloc: Global, kind: Kind, element: &Element) -> Result<Identifier, IdentError>
    ensures { ArePartsOf kind element.now result }
{
    match kind {
        Kind::AccessRequest => read_access_request(alloc, element),
        Kind::Device => read_device(alloc, element),
        Kind::Identity => read_identity(alloc, element),
        Kind::IpAddress => read_ip_address(alloc, element),
        Kind::MacAddress => read_mac_address(alloc, element),
    }
}

fn read_access_request(alloc: Global, element: &Element) -> Result<Identifier, IdentError>
    ensures { ArePartsOf kinds.AccessRequest element.now result }
{
    if !is_blank_inside(element) {
        return Err(IdentError::Invalid);
    }
    let Some(name) = value_of(element, "name") else {
        return Err(IdentError::Invalid);
    };
    if name.is_empty() {
        return Err(IdentError::Invalid);
    }
    Ok(Identifier::AccessRequest {
        name: name.copy(alloc)?,
        domain: copy_domain(alloc, element)?,
    })
}

fn read_device(alloc: Global, element: &Element) -> Result<Identifier, IdentError>
    ensures { ArePartsOf kinds.Device element.now result }
{
    match device_name(element) {
        Some(name) => Ok(Identifier::Device {
            name: name.copy(alloc)?,
        }),
        None => Err(IdentError::Invalid),
    }
}

fn device_name(element: &Element) -> Option<&Text>
    ensures found { IfSome result (λ name. IsDevice element.now name.now) }
    ensures none { IsNone result → (name : List ℕ) → IsDevice element.now name → ⊥ }
{
    let children = &element.children;
    let child = only_solid_child(children.as_slice())?;
    match child {
        Child::Element(child) => text_of_name(child),
        Child::Text(_) => None,
    }
}

// The text of an element `name` that holds a text alone.
fn text_of_name(child: &Element) -> Option<&Text>
    ensures found { IfSome result (λ name. HoldsName child.now name.now) }
    ensures none { IsNone result → (name : List ℕ) → HoldsName child.now name → ⊥ }
{
    if !child.name.is_bare("name") || !has_only(Kind::Device, child) {
        return None;
    }
    let children = &child.children;
    let text = only_text(children.as_slice())?;
    if text.is_empty() { None } else { Some(text) }
}

// The version of the Internet Protocol that an address is of.
#[derive(Clone, Copy, Debug)]
enum Version {
    V4,
    V6,
}

fn read_ip_address(alloc: Global, element: &Element) -> Result<Identifier, IdentError>
    ensures { ArePartsOf kinds.IpAddress element.now result }
{
    if !is_blank_inside(element) {
        return Err(IdentError::Invalid);
    }
    let Some(text) = value_of(element, "value") else {
        return Err(IdentError::Invalid);
    };
    let Some(version) = version_of(element) else {
        return Err(IdentError::Invalid);
    };
    match version {
        Version::V4 => {
            let Some(value) = ip_v4_of(text.as_str()) else {
                return Err(IdentError::Invalid);
            };
            let domain = copy_domain(alloc, element)?;
            Ok(Identifier::IpV4 { value, domain })
        }
        Version::V6 => {
            let Some(value) = ip_v6_of(text.as_str()) else {
                return Err(IdentError::Invalid);
            };
            let domain = copy_domain(alloc, element)?;
            Ok(Identifier::IpV6 { value, domain })
        }
    }
}

fn version_of(element: &Element) -> Option<Version>
    ensures found { IfSome result (IsVersion element.now) }
    ensures none { IsNone result → (version : Version) → IsVersion element.now version → ⊥ }
{
    match value_of(element, "type") {
        Some(name) => version_named(name.as_str()),
        None => Some(Version::V4),
    }
}

fn version_named(name: &str) -> Option<Version>
    ensures found { IfSome result (λ version. name.now ≡ version_name version) }
    ensures none { IsNone result → (version : Version) → name.now ≡ version_name version → ⊥ }
{
    if name == "IPv4" {
        Some(Version::V4)
    } else if name == "IPv6" {
        Some(Version::V6)
    } else {
        None
    }
}

fn read_mac_address(alloc: Global, element: &Element) -> Result<Identifier, IdentError>
    ensures { ArePartsOf kinds.MacAddress element.now result }
{
    if !is_blank_inside(element) {
        return Err(IdentError::Invalid);
    }
    let Some(text) = value_of(element, "value") else {
        return Err(IdentError::Invalid);
    };
    let Some(value) = mac_address_of(text.as_str()) else {
        return Err(IdentError::Invalid);
    };
    let domain = copy_domain(alloc, element)?;
    Ok(Identifier::MacAddress { value, domain })
}
