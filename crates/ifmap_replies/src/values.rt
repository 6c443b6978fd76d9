//! Readers of attributes of results. Attributes are in no namespace.
ghost use Rattle.std.specs.Prelude.{◌≡◌};
ghost use Rattle.ifmap_ident.specs.Parts.{value_of};
ghost use Rattle.ifmap_ident.specs.declared.codes.Code.TheVariants.{Failure};
ghost use Rattle.ifmap_forms.specs.Answers.{IsChecked};
ghost use Rattle.ifmap_replies.specs.Fields.{code_field, code_of, read_code, read_optional, read_word};

use ifmap_elem::{Copied, Element, Text};
use ifmap_forms::FormError;
use ifmap_forms::values::check_word;
use ifmap_ident::{Code, value_of};
use std::alloc::Global;

// The number of the attribute of this name, which is below 2^32.
pub(crate) fn read_word(element: &Element, local: &str) -> Result<u32, FormError>
    ensures { IsChecked (read_word (value_of local.now element.now)) result }
{
    match value_of(element, local) {
        Some(text) => check_word(text.as_str()),
        None => Err(FormError::Named(Code::Failure)),
    }
}

// The text of the attribute of this name, where there is one.
pub(crate) fn read_optional(
    alloc: Global,
    element: &Element,
    local: &str,
) -> Result<Option<Text>, FormError>
    ensures { IsChecked (read_optional (value_of local.now element.now)) result }
{
    match value_of(element, local) {
        Some(text) => Ok(Some(text.copy(alloc)?)),
        None => Ok(None),
    }
}

// The code that the attribute `errorCode` names.
pub(crate) fn read_code(element: &Element) -> Result<Code, FormError>
    ensures { IsChecked (read_code (value_of code_field.local element.now)) result }
{
    let Some(text) = value_of(element, "errorCode") else {
        return Err(FormError::Named(Code::Failure));
    };
    match code_of(text.as_bytes()) {
        Some(code) => Ok(code),
        None => Err(FormError::Named(Code::Failure)),
    }
}

const CODES: [Code; 12] = [
    Code::AccessDenied,
    Code::Failure,
    Code::InvalidIdentifier,
    Code::InvalidIdentifierType,
    Code::IdentifierTooLong,
    Code::InvalidMetadata,
    Code::InvalidSchemaVersion,
    Code::InvalidSessionID,
    Code::MetadataTooLong,
    Code::SearchResultsTooBig,
    Code::PollResultsTooBig,
    Code::SystemError,
];

// The code of this name.
fn code_of(name: &[u8]) -> Option<Code>
    ensures { result ≡ code_of name.now }
{
    CODES
        .iter()
        .copied()
        .find(|code| code.name().as_bytes() == name)
}
