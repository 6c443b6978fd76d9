//! What names in the text of a filter stand for.
ghost use Rattle.std.specs.Prelude.{◌≡◌, IfOk};
ghost use Rattle.std.specs.Option.{option_copied};
ghost use Rattle.ifmap_filter.specs.Grammar.{space_of};
ghost use Rattle.ifmap_prefixes.specs.ifmap_lexer.There.{qualified_of};
ghost use Rattle.ifmap_filter.specs.Progress.{is_word, resolved_name};

use ifmap_elem::{Name, XML_SPACE};
use ifmap_prefixes::Prefixes;
use std::alloc::{AllocError as NoMemory, Global};

// The name that a qualified name stands for; none where its prefix is not in scope.
pub(crate) fn name_of(
    alloc: Global,
    scope: &Prefixes<'_, '_>,
    prefix: &str,
    local: &str,
) -> Result<Option<Name>, NoMemory>
    ensures { IfOk result (λ o. o ≡ resolved_name scope.now (qualified_of prefix.now local.now)) }
{
    match space_of(scope, prefix) {
        Some(space) => Ok(Some(Name::new(alloc, space, local)?)),
        None => Ok(None),
    }
}

// The namespace of a prefix. That of `xml` is the same in every scope.
fn space_of<'a>(scope: &'a Prefixes<'_, '_>, prefix: &str) -> Option<&'a str>
    ensures { option_copied result ≡ space_of scope.now prefix.now }
{
    if prefix.is_empty() {
        return Some("");
    }
    if prefix == "xml" {
        return Some(XML_SPACE);
    }
    scope.space_of(prefix)
}

// Whether the name is this word without a prefix.
pub(crate) fn is_word(word: &str, prefix: &str, local: &str) -> bool
    ensures { result ≡ is_word word.now (qualified_of prefix.now local.now) }
{
    prefix.is_empty() && local == word
}
