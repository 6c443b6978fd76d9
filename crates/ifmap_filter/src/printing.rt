//! Prints filters.
ghost use Rattle.std.specs.Prelude.{◌≡◌, ◌<◌, ◌≤◌, ◌+◌, ◌^◌, ◌++◌, ◌∷◌, [], IfOk, OnOk, codes, length, string_bytes};
ghost use Rattle.ifmap_elem.specs.Chars.{colon};
ghost use Rattle.ifmap_filter.specs.Printing.{NestsNoDeeper, WritesBack, attribute_text, brackets_text, child_text, filter_text, group_text, has_single_quote, joined_texts, literal_text, name_text, numbered_prefix, parts_text, space_place, predicate_text, quote_of, test_name_text, test_text, text_in, word_in};
ghost use Rattle.ifmap_filter.specs.Spaces.{HasSpaces};

use crate::filters::{Filter, Predicate, Test};
use ifmap_elem::{Many, Name, Text, XML_SPACE};
use itoa::Buffer;
use std::alloc::{AllocError as NoMemory, Global};

// Where a predicate stands, by which it has parentheses or none: in the brackets of a test, or as a
// part of an `and` or of an `or`.
#[derive(Clone, Copy)]
pub(crate) enum Around {
    Brackets,
    Ands,
    Ors,
}

impl Filter {
    /// The text of the filter, where these namespaces have the prefixes `f1`, `f2` and so on, in
    /// order; `has_spaces` tells whether they serve. If some text writes the filter in some scope,
    /// this one does in the scope of these prefixes, and nests no deeper. The one error is want of
    /// memory.
    pub fn print(&self, alloc: Global, spaces: &Many<Text>) -> Result<Text, NoMemory>
        requires { HasSpaces spaces.now self.now }
        ensures text { IfOk result (λ text. text ≡ filter_text spaces.now self.now) }
        ensures parsed_back { IfOk result (λ text. WritesBack text spaces.now self.now) }
        ensures nesting { IfOk result (λ text. NestsNoDeeper text spaces.now self.now) }
    {
        let text = text_of(alloc, spaces, &self.tests)?;
        Ok(Text(text))
    }
}

fn text_of(alloc: Global, spaces: &Many<Text>, tests: &Many<Test>) -> Result<String, NoMemory>
    ensures { IfOk result (λ text. string_bytes text
        ≡ joined_texts (codes " or ") (test_text spaces.now) tests.now) }
{
    let mut out = String::new(alloc);
    push_tests(&mut out, spaces.as_slice(), tests.as_slice())?;
    Ok(out)
}

fn push_tests(out: &mut String, spaces: &[Text], tests: &[Test]) -> Result<(), NoMemory>
    ensures { OnOk result (string_bytes out.new
        ≡ string_bytes out.old ++ joined_texts (codes " or ") (test_text spaces.now) tests.now) }
{
    let mut word = "";
    for test in tests {
        out.push_str(word)?;
        push_test(out, spaces, test)?;
        word = " or ";
    }
    Ok(())
}

fn push_test(out: &mut String, spaces: &[Text], test: &Test) -> Result<(), NoMemory>
    ensures { OnOk result (string_bytes out.new
        ≡ string_bytes out.old ++ test_text spaces.now test.now) }
{
    push_test_name(out, spaces, &test.name)?;
    push_brackets(out, spaces, &test.predicate)?;
    Ok(())
}

fn push_test_name(out: &mut String, spaces: &[Text], name: &Option<Name>) -> Result<(), NoMemory>
    ensures { OnOk result (string_bytes out.new
        ≡ string_bytes out.old ++ test_name_text spaces.now name.now) }
{
    match name {
        Some(name) => push_name(out, spaces, name),
        None => out.push_str("*"),
    }
}

fn push_brackets(
    out: &mut String,
    spaces: &[Text],
    predicate: &Option<Predicate>,
) -> Result<(), NoMemory>
    ensures { OnOk result (string_bytes out.new
        ≡ string_bytes out.old ++ brackets_text spaces.now predicate.now) }
{
    match predicate {
        Some(predicate) => {
            out.push_str("[")?;
            push_predicate(out, spaces, predicate, Around::Brackets)?;
            out.push_str("]")?;
            Ok(())
        }
        None => Ok(()),
    }
}

#[cycle(printing)]
fn push_predicate(
    out: &mut String,
    spaces: &[Text],
    predicate: &Predicate,
    around: Around,
) -> Result<(), NoMemory>
    ensures { OnOk result (string_bytes out.new
        ≡ string_bytes out.old ++ text_in around (predicate_text spaces.now predicate.now)) }
{
    match predicate {
        Predicate::Attr { local, value } => push_attribute(out, local, value),
        Predicate::Child { name, value } => push_child(out, spaces, name, value),
        Predicate::And(parts) => match around {
            Around::Brackets => push_parts(out, spaces, parts, Around::Ands),
            Around::Ands => push_group(out, spaces, parts, Around::Ands),
            Around::Ors => push_parts(out, spaces, parts, Around::Ands),
        },
        Predicate::Or(parts) => match around {
            Around::Brackets => push_parts(out, spaces, parts, Around::Ors),
            Around::Ands => push_group(out, spaces, parts, Around::Ors),
            Around::Ors => push_group(out, spaces, parts, Around::Ors),
        },
    }
}

// In parentheses.
#[cycle(printing)]
fn push_group(
    out: &mut String,
    spaces: &[Text],
    parts: &Many<Predicate>,
    around: Around,
) -> Result<(), NoMemory>
    ensures { OnOk result (string_bytes out.new
        ≡ string_bytes out.old ++ group_text (parts_text spaces.now around parts.now)) }
{
    out.push_str("(")?;
    push_parts(out, spaces, parts, around)?;
    out.push_str(")")?;
    Ok(())
}

#[cycle(printing)]
fn push_parts(
    out: &mut String,
    spaces: &[Text],
    parts: &Many<Predicate>,
    around: Around,
) -> Result<(), NoMemory>
    ensures { OnOk result (string_bytes out.new
        ≡ string_bytes out.old ++ parts_text spaces.now around parts.now) }
{
    let mut word = "";
    for part in parts.as_slice() {
        out.push_str(word)?;
        push_predicate(out, spaces, part, around)?;
        word = word_in(around);
    }
    Ok(())
}

// The word between parts; in brackets there is one predicate alone.
fn word_in(around: Around) -> &'static str
    ensures { result.now ≡ word_in around }
{
    match around {
        Around::Brackets => "",
        Around::Ands => " and ",
        Around::Ors => " or ",
    }
}

fn push_attribute(out: &mut String, local: &Text, value: &Text) -> Result<(), NoMemory>
    ensures { OnOk result (string_bytes out.new
        ≡ string_bytes out.old ++ attribute_text local.now value.now) }
{
    out.push_str("@")?;
    out.push_str(local.as_str())?;
    out.push_str("=")?;
    push_literal(out, value)?;
    Ok(())
}

fn push_child(out: &mut String, spaces: &[Text], name: &Name, value: &Text) -> Result<(), NoMemory>
    ensures { OnOk result (string_bytes out.new
        ≡ string_bytes out.old ++ child_text spaces.now name.now value.now) }
{
    push_name(out, spaces, name)?;
    out.push_str("=")?;
    push_literal(out, value)?;
    Ok(())
}

fn push_literal(out: &mut String, value: &Text) -> Result<(), NoMemory>
    ensures { OnOk result (string_bytes out.new
        ≡ string_bytes out.old ++ literal_text value.now) }
{
    let quote = quote_of(value.as_bytes());
    out.push_str(quote)?;
    out.push_str(value.as_str())?;
    out.push_str(quote)
}

// A single quote, or a double one where the value has a single one.
fn quote_of(value: &[u8]) -> &'static str
    ensures { result.now ≡ quote_of value.now ∷ [] }
{
    if has_single_quote(value) { "\"" } else { "'" }
}

fn has_single_quote(value: &[u8]) -> bool
    ensures { result ≡ has_single_quote value.now }
{
    value.iter().any(|b| *b == b'\'')
}

fn push_name(out: &mut String, spaces: &[Text], name: &Name) -> Result<(), NoMemory>
    ensures { OnOk result (string_bytes out.new
        ≡ string_bytes out.old ++ name_text spaces.now name.now) }
{
    let space = name.space.as_str();
    let local = name.local.as_str();
    if space == "" {
        return out.push_str(local);
    }
    if space == XML_SPACE {
        return push_qualified(out, "xml", local);
    }
    push_numbered(out, place_of(space, spaces), local)
}

fn push_qualified(out: &mut String, prefix: &str, local: &str) -> Result<(), NoMemory>
    ensures { OnOk result (string_bytes out.new
        ≡ string_bytes out.old ++ (prefix.now ++ (colon ∷ local.now))) }
{
    out.push_str(prefix)?;
    out.push_str(":")?;
    out.push_str(local)?;
    Ok(())
}

// With the prefix of the namespace that has this place, counted from 0.
fn push_numbered(out: &mut String, place: usize, local: &str) -> Result<(), NoMemory>
    requires { place < 2 ^ 63 }
    ensures { OnOk result (string_bytes out.new
        ≡ string_bytes out.old ++ (numbered_prefix (place + 1) ++ (colon ∷ local.now))) }
{
    push_prefix(out, place + 1)?;
    out.push_str(":")?;
    out.push_str(local)?;
    Ok(())
}

fn push_prefix(out: &mut String, number: usize) -> Result<(), NoMemory>
    ensures { OnOk result (string_bytes out.new ≡ string_bytes out.old ++ numbered_prefix number) }
{
    let mut digits = Buffer::new();
    out.push_str("f")?;
    out.push_str(digits.format(number))?;
    Ok(())
}

// The place of the namespace, and the end where it is not among them.
#[tactic(auto, using(crate::proofs::PrintLaws::at_place, crate::proofs::PrintLaws::past_place, crate::proofs::PrintLaws::no_place))]
fn place_of(space: &str, spaces: &[Text]) -> usize
    ensures place { result ≡ space_place space.now spaces.now }
    ensures within { result ≤ length spaces.now }
{
    for (i, other) in spaces.iter().enumerate() {
        if other.as_str() == space {
            return i;
        }
    }
    spaces.len()
}
