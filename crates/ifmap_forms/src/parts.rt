//! What an element of a message has in it.
ghost use Rattle.std.specs.Prelude.{◌≡◌, ◌≢◌, ℕ, List, IfErr, None, map};
ghost use Rattle.std.specs.List.{list_all, list_any};
ghost use Rattle.std.specs.Str.{bytes_eq};
ghost use Rattle.ifmap_ident.specs.Parts.{has_only, is_known};
ghost use Rattle.ifmap_elem.specs.Chars.{is_white};
ghost use Rattle.ifmap_elem.specs.WhiteSpace.{is_blank, is_blank_part};
ghost use Rattle.ifmap_ident.specs.declared.codes.Code.TheVariants.{Failure};
ghost use Rattle.ifmap_forms.specs.Answers.{IsChecked};
ghost use Rattle.ifmap_forms.specs.Checks.{need, pass};
ghost use Rattle.ifmap_forms.specs.Tables.{parts_in};

use crate::errors::FormError;
use ifmap_elem::white_space::{is_blank, is_white_alone};
use ifmap_elem::{Attribute, Child, Element, Text};
use ifmap_ident::Code;

/// Whether each attribute of the element has one of these local names or is in a namespace.
pub fn has_only(element: &Element, locals: &[&str]) -> bool
    ensures { result ≡ has_only (map (λ local. local.now) locals.now) element.now }
{
    let attributes = &element.attributes;
    attributes
        .iter()
        .all(|attribute| is_known(attribute, locals))
}

fn is_known(attribute: &Attribute, locals: &[&str]) -> bool
    ensures { result ≡ is_known (map (λ local. local.now) locals.now) attribute.now }
{
    !attribute.name.space.is_empty() || is_listed(locals, attribute.name.local.as_str())
}

fn is_listed(locals: &[&str], local: &str) -> bool
    ensures { result ≡ list_any (bytes_eq local.now) (map (λ l. l.now) locals.now) }
{
    is_among(locals, local)
}

fn is_among(locals: &[&str], local: &str) -> bool
    ensures { result ≡ list_any (λ l. bytes_eq local.now l.now) locals.now }
{
    locals.iter().any(|listed| local == *listed)
}

/// Whether all these children are texts of white space alone, or there is none.
pub fn are_blank(children: &[Child]) -> bool
    ensures { result ≡ list_all is_blank_part (parts_in children.now) }
{
    all_blank(children)
}

fn all_blank(children: &[Child]) -> bool
    ensures { result ≡ list_all is_blank children.now }
{
    children.iter().all(is_blank)
}

/// Passes over a text that stands where elements are read: nothing is found there. A text that is
/// not white space alone is Failure.
pub fn pass_over_text<T: Drop>(text: &Text) -> Result<Option<T>, FormError>
    ensures answer { IsChecked (need (list_all is_white text.now) Failure (pass None)) result }
    ensures definite { IfErr result (λ error. error ≢ FormError.NoMemory) }
{
    if is_white_alone(text.as_bytes()) {
        Ok(None)
    } else {
        Err(FormError::Named(Code::Failure))
    }
}
