//! Readers of attributes of requests, each of which answers what the value means, or what it means
//! that there is none (IF-MAP binding for SOAP, version 2.2, section 3). Attributes are in no
//! namespace.
ghost use Rattle.std.specs.Prelude.{◌≡◌, ◌≢◌, ◌&&◌, ◌^◌, nat_le, nat_lt, IfErr, Some};
ghost use Rattle.ifmap_ident.specs.Parts.{value_of};
ghost use Rattle.ifmap_ident.specs.declared.codes.Code.TheVariants.{Failure};
ghost use Rattle.ifmap_forms.specs.Answers.{IsChecked};
ghost use Rattle.ifmap_forms.specs.Checks.{need, pass};
ghost use Rattle.ifmap_forms.specs.Scopes.{place_scope};
ghost use Rattle.ifmap_forms.specs.Values.{depth_field, filter_check, kinds_field, lifetime_field, limit_field, longest_name, name_field, read_depth, read_filter, read_kinds, read_lifetime, read_limit, read_name, read_size, read_text, size_field, word_check};

use crate::errors::FormError;
use crate::kinds::kinds_in;
use crate::numbers::number_of_digits;
use crate::places::{MessagePlace, full_path};
use ifmap_elem::{Copied, Element, Many, Text};
use ifmap_filter::laws::text_is_filter_or_stops;
use ifmap_filter::{Filter, FilterError, Prefixes};
use ifmap_ident::{Code, Kind, value_of};
use std::alloc::Global;

// The most bytes of the name of a subscription.
const LONGEST_NAME: usize = 1_000;

/// The fewest bytes to which a client can limit a poll's result.
pub const LEAST_LIMIT: u32 = 10_000;

/// The most bytes to which a client can limit a poll's result.
pub const GREATEST_LIMIT: u32 = 5_000_000;

// How many bytes the result of a search may have where it is not said, and at most.
const USUAL_SIZE: u64 = 100_000;

const GREATEST_SIZE: u64 = 50_000_000;

/// The text of the attribute of this name, whatever it is; Failure where there is none.
pub fn read_text(alloc: Global, element: &Element, local: &str) -> Result<Text, FormError>
    ensures { IsChecked (read_text (value_of local.now element.now)) result }
{
    match value_of(element, local) {
        Some(text) => Ok(text.copy(alloc)?),
        None => Err(FormError::Named(Code::Failure)),
    }
}

/// The name of a subscription: the attribute `name`, of 1 to 1,000 bytes. Another length is
/// Failure, and so is none.
pub fn read_name(alloc: Global, element: &Element) -> Result<Text, FormError>
    ensures { IsChecked (read_name (value_of name_field.local element.now)) result }
{
    let Some(name) = value_of(element, "name") else {
        return Err(FormError::Named(Code::Failure));
    };
    if !is_name_length(name.len()) {
        return Err(FormError::Named(Code::Failure));
    }
    Ok(name.copy(alloc)?)
}

fn is_name_length(length: usize) -> bool
    ensures { result ≡ (nat_le 1 length && nat_le length longest_name) }
{
    1 <= length && length <= LONGEST_NAME
}

/// How many bytes a poll's result may have: the attribute `max-poll-result-size`, put into the
/// range of 10,000 to 5,000,000; `None` where there is none. A value that is not one ASCII digit
/// or more is Failure.
pub fn read_limit(element: &Element) -> Result<Option<u32>, FormError>
    ensures answer { IsChecked (read_limit (value_of limit_field.local element.now)) result }
    ensures definite { IfErr result (λ error. error ≢ FormError.NoMemory) }
{
    let Some(text) = value_of(element, "max-poll-result-size") else {
        return Ok(None);
    };
    match number_of_digits(text.as_str()) {
        Some(number) => Ok(Some(number.clamp(LEAST_LIMIT as u64, GREATEST_LIMIT as u64) as u32)),
        None => Err(FormError::Named(Code::Failure)),
    }
}

/// The most links of a walk: the attribute `max-depth`, and 0 where there is none. A value that is
/// not one ASCII digit or more is Failure, and so is a number of 2^32 or more.
pub fn read_depth(element: &Element) -> Result<u32, FormError>
    ensures answer { IsChecked (read_depth (value_of depth_field.local element.now)) result }
    ensures definite { IfErr result (λ error. error ≢ FormError.NoMemory) }
{
    match value_of(element, "max-depth") {
        Some(text) => check_word(text.as_str()),
        None => Ok(0),
    }
}

/// The number below 2^32 that a text writes. A text that is not one ASCII digit or more is Failure,
/// and so is a number of 2^32 or more.
pub fn check_word(text: &str) -> Result<u32, FormError>
    ensures answer { IsChecked (word_check text.now) result }
    ensures definite { IfErr result (λ error. error ≢ FormError.NoMemory) }
{
    match number_of_digits(text) {
        Some(number) => narrow_number(number),
        None => Err(FormError::Named(Code::Failure)),
    }
}

fn narrow_number(number: u64) -> Result<u32, FormError>
    ensures answer { IsChecked (need (nat_lt number (2 ^ 32)) Failure (pass number)) result }
    ensures definite { IfErr result (λ error. error ≢ FormError.NoMemory) }
{
    match u32::try_from(number) {
        Ok(word) => Ok(word),
        Err(_) => Err(FormError::Named(Code::Failure)),
    }
}

/// How many bytes the result of a search may have: the attribute `max-size`, or 50,000,000 where
/// it is greater, and 100,000 where there is none. A value that is not one ASCII digit or more is
/// Failure.
pub fn read_size(element: &Element) -> Result<u64, FormError>
    ensures answer { IsChecked (read_size (value_of size_field.local element.now)) result }
    ensures definite { IfErr result (λ error. error ≢ FormError.NoMemory) }
{
    let Some(text) = value_of(element, "max-size") else {
        return Ok(USUAL_SIZE);
    };
    match number_of_digits(text.as_str()) {
        Some(number) => Ok(number.min(GREATEST_SIZE)),
        None => Err(FormError::Named(Code::Failure)),
    }
}

/// Whether what is published stays when the session ends: the attribute `lifetime` is `forever`;
/// it does not where it is `session`, or there is none. Another value is Failure.
pub fn read_lifetime(element: &Element) -> Result<bool, FormError>
    ensures answer { IsChecked (read_lifetime (value_of lifetime_field.local element.now)) result }
    ensures definite { IfErr result (λ error. error ≢ FormError.NoMemory) }
{
    match value_of(element, "lifetime") {
        Some(text) => lifetime_of(text.as_str()),
        None => Ok(false),
    }
}

fn lifetime_of(text: &str) -> Result<bool, FormError>
    ensures answer { IsChecked (read_lifetime (Some text.now)) result }
    ensures definite { IfErr result (λ error. error ≢ FormError.NoMemory) }
{
    match text {
        "session" => Ok(false),
        "forever" => Ok(true),
        _ => Err(FormError::Named(Code::Failure)),
    }
}

/// The filter in the attribute of this name of an element at a place, read by the prefixes in scope
/// there; `None` where there is none. A value that is no filter is Failure.
pub fn read_filter(
    alloc: Global,
    place: &MessagePlace<'_, '_>,
    element: &Element,
    local: &str,
) -> Result<Option<Filter>, FormError>
    ensures { IsChecked (read_filter (place_scope place.now.declared.now place.now.path.now
        place.now.child) (value_of local.now element.now)) result }
{
    match value_of(element, local) {
        Some(text) => Ok(Some(filter_of(alloc, place, text)?)),
        None => Ok(None),
    }
}

fn filter_of(alloc: Global, place: &MessagePlace<'_, '_>, text: &Text) -> Result<Filter, FormError>
    ensures { IsChecked (filter_check (place_scope place.now.declared.now place.now.path.now
        place.now.child) text.now) result }
{
    text_is_filter_or_stops();
    let path = full_path(alloc, place)?;
    match Filter::parse_among(alloc, text, &Prefixes::at(place.declared, &path)) {
        Ok(filter) => Ok(filter),
        Err(FilterError::NotAFilter { .. }) => Err(FormError::Named(Code::Failure)),
        Err(FilterError::NoMemory) => Err(FormError::NoMemory),
    }
}

/// The kinds of identifiers from which no walk goes on: the attribute `terminal-identifier-type`,
/// names of kinds with commas between them and white space round each. A blank value means no
/// kind, and so does none; another name is InvalidIdentifierType.
pub fn read_kinds(alloc: Global, element: &Element) -> Result<Many<Kind>, FormError>
    ensures { IsChecked (read_kinds (value_of kinds_field.local element.now)) result }
{
    match value_of(element, "terminal-identifier-type") {
        Some(text) => kinds_in(alloc, text.as_bytes()),
        None => Ok(Many(Vec::new(alloc))),
    }
}
