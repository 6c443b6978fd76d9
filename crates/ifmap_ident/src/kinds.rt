//! The kinds of identifiers, and the types of identities.
ghost use Rattle.std.specs.Prelude.{◌≡◌, IfSome, IsNone};
ghost use Rattle.std.specs.List.{find};
ghost use Rattle.std.specs.Str.{bytes_eq};
ghost use Rattle.ifmap_elem.specs.Building.{bare_name, is_bare};
ghost use Rattle.ifmap_ident.specs.Kinds.{identity_type_name, identity_types, kind_name, kinds};
ghost use Rattle.ifmap_ident.specs.declared.kinds.IdentityType.{IdentityType};
ghost use Rattle.ifmap_ident.specs.declared.kinds.Kind.{Kind};

use ifmap_elem::{Copied, Name};
use std::alloc::{AllocError as NoMemory, Global};

/// Which element an identifier is.
#[derive(Clone, Copy, Debug, PartialEq, Eq)]
pub enum Kind {
    /// `access-request`.
    AccessRequest,
    /// `device`.
    Device,
    /// `identity`.
    Identity,
    /// `ip-address`, of either version.
    IpAddress,
    /// `mac-address`.
    MacAddress,
}

impl Copied for Kind {
    fn copy(&self, _alloc: Global) -> Result<Self, NoMemory> {
        Ok(*self)
    }
}

/// Every kind, in the order of their names.
pub const KINDS: [Kind; 5] = [
    Kind::AccessRequest,
    Kind::Device,
    Kind::Identity,
    Kind::IpAddress,
    Kind::MacAddress,
];

impl Kind {
    /// The name of its element. It takes no memory.
    pub fn name(self) -> &'static str
        ensures { result.now ≡ kind_name self }
    {
        match self {
            Kind::AccessRequest => "access-request",
            Kind::Device => "device",
            Kind::Identity => "identity",
            Kind::IpAddress => "ip-address",
            Kind::MacAddress => "mac-address",
        }
    }

    /// The kind whose element has this name; `None` exactly where there is none.
    pub fn of_name(name: &Name) -> Option<Kind>
        ensures found { IfSome result (λ kind. name.now ≡ bare_name (kind_name kind)) }
        ensures none { IsNone result → (kind : Kind) →
            name.now ≡ bare_name (kind_name kind) → ⊥ }
    {
        kind_of(name)
    }
}

fn kind_of(name: &Name) -> Option<Kind>
    ensures { result ≡ find (λ kind. is_bare (kind_name kind) name.now) kinds }
{
    KINDS.iter().copied().find(|kind| name.is_bare(kind.name()))
}

/// What the name of an identity is.
#[derive(Clone, Copy, Debug, PartialEq, Eq)]
pub enum IdentityType {
    /// The name of an attestation identity key.
    AikName,
    /// A distinguished name of X.500.
    DistinguishedName,
    /// The name of a domain, which is kept in lower case and without the dots at its end.
    DnsName,
    /// An address of electronic mail.
    EmailAddress,
    /// A host identity tag.
    HipHit,
    /// A principal of Kerberos.
    KerberosPrincipal,
    /// The name of a user.
    Username,
    /// A URI of SIP.
    SipUri,
    /// A telephone number as a URI.
    TelUri,
    /// As `other-type-definition` says.
    Other,
}

const IDENTITY_TYPES: [IdentityType; 10] = [
    IdentityType::AikName,
    IdentityType::DistinguishedName,
    IdentityType::DnsName,
    IdentityType::EmailAddress,
    IdentityType::HipHit,
    IdentityType::KerberosPrincipal,
    IdentityType::Username,
    IdentityType::SipUri,
    IdentityType::TelUri,
    IdentityType::Other,
];

impl IdentityType {
    /// The type as it is written in the attribute `type`.
    pub fn name(self) -> &'static str
        ensures { result.now ≡ identity_type_name self }
    {
        match self {
            IdentityType::AikName => "aik-name",
            IdentityType::DistinguishedName => "distinguished-name",
            IdentityType::DnsName => "dns-name",
            IdentityType::EmailAddress => "email-address",
            IdentityType::HipHit => "hip-hit",
            IdentityType::KerberosPrincipal => "kerberos-principal",
            IdentityType::Username => "username",
            IdentityType::SipUri => "sip-uri",
            IdentityType::TelUri => "tel-uri",
            IdentityType::Other => "other",
        }
    }

    /// The type that is written like this; `None` exactly where there is none.
    pub fn of_name(name: &str) -> Option<IdentityType>
        ensures found { IfSome result (λ kind. name.now ≡ identity_type_name kind) }
        ensures none { IsNone result → (kind : IdentityType) →
            name.now ≡ identity_type_name kind → ⊥ }
    {
        type_of(name)
    }
}

fn type_of(name: &str) -> Option<IdentityType>
    ensures { result ≡ find (λ kind. bytes_eq (identity_type_name kind) name.now) identity_types }
{
    IDENTITY_TYPES
        .iter()
        .copied()
        .find(|kind| kind.name() == name)
}
