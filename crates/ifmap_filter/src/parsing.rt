//! Reads the text of a filter.
ghost use Rattle.std.specs.Prelude.{IfErr, IfOk};
ghost use Rattle.ifmap_filter.specs.Progress.{filter_state};
ghost use Rattle.ifmap_filter.specs.Reaching.{IsEndAnswer, IsRefused, ReadsOnTo};
ghost use Rattle.ifmap_filter.specs.Texts.{IsParsed};

use crate::errors::FilterError;
use crate::filters::Filter;
use crate::lexing::{token_at, without_white};
use crate::progress::{FilterProgress, filter_at, take_token};
use ifmap_elem::Text;
use ifmap_prefixes::rows::declarations_of;
use ifmap_prefixes::{Declarations, Prefixes, Scope};
use std::alloc::Global;

impl Filter {
    /// The filter that the text writes, where names have the prefixes of this scope. The grammar
    /// (docs/FORMATS.md) is made after the filters of the IF-MAP binding for SOAP, version 2.2:
    /// tests of names, attributes and children, joined by `or` and `and`. Names are those of
    /// Namespaces in XML 1.0, section 4, and white space that of XML 1.0, section 2.3.
    ///
    /// The namespace of a prefix is what the first row of the scope with that prefix says. The
    /// prefix `xml` is bound for good (Namespaces in XML 1.0, section 3) and not looked up. A name
    /// without a prefix is in no namespace, whatever the default is. Parentheses nest 64 deep at
    /// most. A text that is empty or all white space is the filter without tests, which no element
    /// meets; that is another thing than no filter.
    ///
    /// `NotAFilter { at }` has the one place at which the text stops to write a filter: that of the
    /// first token that is not allowed after those before it, or that is malformed, or the end of
    /// the text where it ends too soon. It is counted in bytes of the text as UTF-8, from 0; a name
    /// counts from its prefix on. The other error is want of memory.
    pub fn parse(alloc: Global, text: &Text, scope: &Scope) -> Result<Filter, FilterError>
        ensures { IsParsed text.now scope.now result }
    {
        let rows = declarations_of(alloc, scope)?;
        let declarations = Declarations::of(alloc, rows.as_slice())?;
        read_filter(alloc, text.as_str(), &Prefixes::at(&declarations, &[]))
    }

    /// The filter that the text writes as `parse` says, where the prefixes in scope are found by
    /// search: nothing is made of the declarations that the text does not name.
    pub fn parse_among(
        alloc: Global,
        text: &Text,
        scope: &Prefixes<'_, '_>,
    ) -> Result<Filter, FilterError>
        ensures { IsParsed text.now scope.now result }
    {
        read_filter(alloc, text.as_str(), scope)
    }
}

fn read_filter(alloc: Global, text: &str, scope: &Prefixes<'_, '_>) -> Result<Filter, FilterError>
    ensures { IsParsed text.now scope.now result }
{
    let mut standing = FilterProgress::new(alloc);
    let mut rest = without_white(text);
    while !rest.is_empty() {
        let at = (text.len() - rest.len()) as u64;
        let left = read_token(alloc, scope, &mut standing, rest, at)?;
        rest = left;
    }
    whole_filter(alloc, standing, text.len() as u64)
}

// Takes the token at the front, which is at that place; what is left after white space.
fn read_token<'a>(
    alloc: Global,
    scope: &Prefixes<'_, '_>,
    standing: &mut FilterProgress,
    rest: &'a str,
    at: u64,
) -> Result<&'a str, FilterError>
    ensures next { IfOk result (λ left.
        ReadsOnTo scope.now (filter_state standing.old) rest.now
        (filter_state standing.new) left.now) }
    ensures refused { IfErr result (λ e.
        IsRefused scope.now (filter_state standing.old) rest.now at e) }
{
    let Some((raw, after)) = token_at(rest) else {
        return Err(FilterError::NotAFilter { at });
    };
    let allowed = take_token(alloc, scope, standing, raw)?;
    if !allowed {
        return Err(FilterError::NotAFilter { at });
    }
    Ok(without_white(after))
}

// The filter, where the text may end here, at that place.
fn whole_filter(alloc: Global, standing: FilterProgress, at: u64) -> Result<Filter, FilterError>
    ensures { IsEndAnswer (filter_state standing) at result }
{
    match filter_at(alloc, standing)? {
        Some(filter) => Ok(filter),
        None => Err(FilterError::NotAFilter { at }),
    }
}
