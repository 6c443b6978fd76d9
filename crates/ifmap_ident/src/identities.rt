//! Identities, read from their elements.
ghost use Rattle.std.specs.Prelude.{◌≡◌, codes, IfSome, IsNone, Some};
ghost use Rattle.ifmap_ident.specs.Canon.{IsDefinition};
ghost use Rattle.ifmap_ident.specs.IdentityNames.{name_form};
ghost use Rattle.ifmap_ident.specs.Kinds.{identity_type_name};
ghost use Rattle.ifmap_ident.specs.Meaning.{ArePartsOf, IsFound};
ghost use Rattle.ifmap_ident.specs.Parts.{value_of};
ghost use Rattle.ifmap_ident.specs.declared.kinds.IdentityType.{IdentityType};
ghost use Rattle.ifmap_ident.specs.declared.kinds.IdentityType.TheVariants.{Other};
ghost use Rattle.ifmap_ident.specs.declared.kinds.Kind.TheVariants.{Identity};

use crate::errors::IdentError;
use crate::identifiers::Identifier;
use crate::kinds::IdentityType;
use crate::names::{NameForm, keep_name};
use crate::parts::{copy_domain, is_blank_inside, value_of};
use ifmap_elem::{Copied, Element, Text};
use std::alloc::{AllocError as NoMemory, Global};

pub(crate) fn read_identity(alloc: Global, element: &Element) -> Result<Identifier, IdentError>
    ensures { ArePartsOf Identity element.now result }
{
    if !is_blank_inside(element) {
        return Err(IdentError::Invalid);
    }
    let Some(kind) = type_of(element) else {
        return Err(IdentError::Invalid);
    };
    let Some(other) = copy_definition(alloc, kind, element)? else {
        return Err(IdentError::Invalid);
    };
    let Some(text) = value_of(element, "name") else {
        return Err(IdentError::Invalid);
    };
    let Some(name) = keep_name(alloc, name_form(kind, &other), text)? else {
        return Err(IdentError::Invalid);
    };
    let domain = copy_domain(alloc, element)?;
    Ok(Identifier::Identity {
        name,
        kind,
        other,
        domain,
    })
}

// The type that the element gives.
fn type_of(element: &Element) -> Option<IdentityType>
    ensures found { IfSome result (λ kind.
        value_of (codes "type") element.now ≡ Some (identity_type_name kind)) }
    ensures none { IsNone result → (kind : IdentityType) →
        value_of (codes "type") element.now ≡ Some (identity_type_name kind) → ⊥ }
{
    let name = value_of(element, "type")?;
    IdentityType::of_name(name.as_str())
}

// A copy of what the type `other` is defined as, or the empty text of another type; `None` where the
// definition is needed and there is none.
fn copy_definition(
    alloc: Global,
    kind: IdentityType,
    element: &Element,
) -> Result<Option<Text>, NoMemory>
    ensures { IsFound (IsDefinition kind (value_of (codes "other-type-definition") element.now))
        result }
{
    match kind {
        IdentityType::Other => copy_needed_definition(alloc, element),
        _ => Ok(Some(Text(String::new(alloc)))),
    }
}

fn copy_needed_definition(alloc: Global, element: &Element) -> Result<Option<Text>, NoMemory>
    ensures { IsFound (IsDefinition Other (value_of (codes "other-type-definition") element.now))
        result }
{
    let Some(definition) = value_of(element, "other-type-definition") else {
        return Ok(None);
    };
    if definition.is_empty() {
        return Ok(None);
    }
    Ok(Some(definition.copy(alloc)?))
}

// In what form a type keeps its names.
fn name_form(kind: IdentityType, other: &Text) -> NameForm
    ensures { result ≡ name_form kind other.now }
{
    match kind {
        IdentityType::DnsName => NameForm::Domain,
        IdentityType::Other => other_form(other),
        _ => NameForm::Literal,
    }
}

fn other_form(other: &Text) -> NameForm
    ensures { result ≡ name_form Other other.now }
{
    if other.as_str() == "extended" {
        NameForm::Spelled
    } else {
        NameForm::Literal
    }
}
