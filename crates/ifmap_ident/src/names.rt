//! The names of identities, in the form in which they are kept.
ghost use Rattle.std.specs.Prelude.{◌≡◌, ◌≢◌, [], IfOk};
ghost use Rattle.ifmap_ident.specs.IdentityNames.{IsKeptName, IsSpelledName, domain_name, without_last_dots};
ghost use Rattle.ifmap_ident.specs.Meaning.{IsFound, text_unless_empty};
ghost use Rattle.ifmap_elem.specs.Canonical.{canonical_bytes};
ghost use Rattle.ifmap_elem.specs.Fit.{IsFit};

use ifmap_elem::{Copied, Element, Text, canonical};
use ifmap_reader::{ReadError, read};
use std::alloc::{AllocError as NoMemory, Global};

// In what form the name of an identity is kept.
#[derive(Clone, Copy, Debug)]
pub(crate) enum NameForm {
    // As it was given.
    Literal,
    // In lower case and without the full stops at its end.
    Domain,
    // As the canonical bytes of the element that it spells.
    Spelled,
}

// The most levels of the element that a name spells.
const NAME_LEVELS: u32 = 64;

// The name in its form; `None` where it has none, or is empty.
pub(crate) fn keep_name(
    alloc: Global,
    form: NameForm,
    text: &Text,
) -> Result<Option<Text>, NoMemory>
    ensures { IsFound (λ name. IsKeptName form text.now name × (name ≢ [])) result }
{
    match form {
        NameForm::Literal => Ok(text_unless_empty(text.copy(alloc)?)),
        NameForm::Domain => Ok(text_unless_empty(domain_name(alloc, text)?)),
        NameForm::Spelled => spelled_name(alloc, text),
    }
}

fn text_unless_empty(text: Text) -> Option<Text>
    ensures { result ≡ text_unless_empty text }
{
    if text.is_empty() {
        return None;
    }
    Some(text)
}

fn domain_name(alloc: Global, text: &Text) -> Result<Text, NoMemory>
    ensures { IfOk result (λ name. name ≡ domain_name text.now) }
{
    let mut name = String::from_str(alloc, without_last_dots(text.as_str()))?;
    name.make_ascii_lowercase();
    Ok(Text(name))
}

fn without_last_dots(text: &str) -> &str
    ensures { result.now ≡ without_last_dots text.now }
{
    text.trim_end_matches('.')
}

// The canonical bytes of the element that the text spells; `None` where it spells none, or one that
// nests too deep.
fn spelled_name(alloc: Global, text: &Text) -> Result<Option<Text>, NoMemory>
    ensures { IsFound (λ name. IsSpelledName text.now name × (name ≢ [])) result }
{
    match read(alloc, text.as_bytes(), NAME_LEVELS) {
        Ok(reading) => Ok(Some(canonical_text(alloc, &reading.root)?)),
        Err(ReadError::NoMemory) => Err(NoMemory),
        Err(ReadError::Unreadable { .. }) => Ok(None),
        Err(ReadError::TooDeep { .. }) => Ok(None),
    }
}

// The canonical bytes of an element that fits, as a text.
fn canonical_text(alloc: Global, element: &Element) -> Result<Text, NoMemory>
    requires { IsFit element.now }
    ensures { IfOk result (λ text. text ≡ canonical_bytes element.now) }
{
    let bytes = canonical(alloc, element)?;
    Ok(Text(String::from_utf8(bytes.0).unwrap()))
}
