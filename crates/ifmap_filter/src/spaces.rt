//! The namespaces of the names in filters, by which a caller chooses the prefixes of a print.
ghost use Rattle.std.specs.Prelude.{◌≡◌, ◌↔◌, IfOk, IsTrue, OnOk};
ghost use Rattle.std.specs.List.{flat_map, list_all, list_any};
ghost use Rattle.std.specs.Str.{bytes_eq};
ghost use Rattle.ifmap_elem.specs.Namespaces.{declared_among, AddsSpaces, IsFront};
ghost use Rattle.ifmap_filter.specs.Spaces.{HasSpaces, brackets_spaces, filter_spaces, has_each, has_space, name_spaces, predicate_spaces, test_spaces, with_each, with_space};

use crate::filters::{Filter, Predicate, Test};
use ifmap_elem::{Copied, Many, Name, Text, XML_SPACE};
use std::alloc::{AllocError as NoMemory, Global};

impl Filter {
    /// Whether these namespaces serve to print the filter: those of its names are among them, but
    /// for none and that of `xml`, which need no place. It takes no memory.
    pub fn has_spaces(&self, spaces: &Many<Text>) -> bool
        ensures { IsTrue result ↔ HasSpaces spaces.now self.now }
    {
        has_tests(spaces.as_slice(), self.tests.as_slice())
    }

    /// The namespaces that serve to print the filter, each once, in the order of first occurrence.
    /// The one error is want of memory.
    pub fn spaces(&self, alloc: Global) -> Result<Many<Text>, NoMemory>
        ensures listed { IfOk result (λ spaces.
            spaces ≡ declared_among (filter_spaces self.now)) }
        ensures serve { IfOk result (λ spaces. HasSpaces spaces self.now) }
    {
        let spaces = self.add_spaces(alloc, Many(Vec::new(alloc)))?;
        Ok(spaces)
    }

    /// These namespaces, and after them those of the filter that are not among them, in the order
    /// of first occurrence: so a list that serves several filters is made by one after the other.
    /// The one error is want of memory.
    pub fn add_spaces(&self, alloc: Global, spaces: Many<Text>) -> Result<Many<Text>, NoMemory>
        ensures added { IfOk result (λ all. all ≡ with_each spaces (filter_spaces self.now)) }
        ensures begins { IfOk result (λ all. IsFront spaces all) }
        ensures listed { IfOk result (λ all. AddsSpaces spaces (filter_spaces self.now) all) }
        ensures serve { IfOk result (λ all. HasSpaces all self.now) }
    {
        let all = with_tests(alloc, spaces, &self.tests)?;
        Ok(all)
    }
}

fn has_tests(spaces: &[Text], tests: &[Test]) -> bool
    ensures { result ≡ list_all (λ test. has_each spaces.now (test_spaces test)) tests.now }
{
    tests.iter().all(|test| has_test(spaces, test))
}

fn has_test(spaces: &[Text], test: &Test) -> bool
    ensures { result ≡ has_each spaces.now (test_spaces test.now) }
{
    has_name_space(spaces, &test.name) && has_brackets(spaces, &test.predicate)
}

fn has_name_space(spaces: &[Text], name: &Option<Name>) -> bool
    ensures { result ≡ has_each spaces.now (name_spaces name.now) }
{
    match name {
        Some(name) => has_space(spaces, &name.space),
        None => true,
    }
}

fn has_brackets(spaces: &[Text], predicate: &Option<Predicate>) -> bool
    ensures { result ≡ has_each spaces.now (brackets_spaces predicate.now) }
{
    match predicate {
        Some(predicate) => has_predicate(spaces, predicate),
        None => true,
    }
}

#[cycle(having)]
fn has_predicate(spaces: &[Text], predicate: &Predicate) -> bool
    ensures { result ≡ has_each spaces.now (predicate_spaces predicate.now) }
{
    match predicate {
        Predicate::Attr { .. } => true,
        Predicate::Child { name, .. } => has_space(spaces, &name.space),
        Predicate::And(parts) => has_parts(spaces, parts),
        Predicate::Or(parts) => has_parts(spaces, parts),
    }
}

#[cycle(having)]
fn has_parts(spaces: &[Text], parts: &Many<Predicate>) -> bool
    ensures { result ≡ list_all (λ p. has_each spaces.now (predicate_spaces p)) parts.now }
{
    for part in parts.as_slice() {
        if !has_predicate(spaces, part) {
            return false;
        }
    }
    true
}

fn has_space(spaces: &[Text], space: &Text) -> bool
    ensures { result ≡ has_space spaces.now space.now }
{
    let text = space.as_str();
    if text == "" {
        return true;
    }
    if text == XML_SPACE {
        return true;
    }
    is_among(spaces, space)
}

fn is_among(spaces: &[Text], space: &Text) -> bool
    ensures { result ≡ list_any (bytes_eq space.now) spaces.now }
{
    spaces.iter().any(|one| *space == *one)
}

fn with_tests(alloc: Global, spaces: Many<Text>, tests: &Many<Test>) -> Result<Many<Text>, NoMemory>
    ensures { IfOk result (λ all. all ≡ with_each spaces (flat_map test_spaces tests.now)) }
{
    let mut all = spaces;
    add_tests(alloc, &mut all.0, tests.as_slice())?;
    Ok(all)
}

fn add_tests(alloc: Global, spaces: &mut Vec<Text>, tests: &[Test]) -> Result<(), NoMemory>
    ensures { OnOk result (spaces.new.items
        ≡ with_each spaces.old.items (flat_map test_spaces tests.now)) }
{
    for test in tests {
        add_test(alloc, spaces, test)?;
    }
    Ok(())
}

fn add_test(alloc: Global, spaces: &mut Vec<Text>, test: &Test) -> Result<(), NoMemory>
    ensures { OnOk result (spaces.new.items ≡ with_each spaces.old.items (test_spaces test.now)) }
{
    add_name(alloc, spaces, &test.name)?;
    add_brackets(alloc, spaces, &test.predicate)?;
    Ok(())
}

fn add_name(alloc: Global, spaces: &mut Vec<Text>, name: &Option<Name>) -> Result<(), NoMemory>
    ensures { OnOk result (spaces.new.items ≡ with_each spaces.old.items (name_spaces name.now)) }
{
    match name {
        Some(name) => add_space(alloc, spaces, &name.space),
        None => Ok(()),
    }
}

fn add_brackets(
    alloc: Global,
    spaces: &mut Vec<Text>,
    predicate: &Option<Predicate>,
) -> Result<(), NoMemory>
    ensures { OnOk result (spaces.new.items
        ≡ with_each spaces.old.items (brackets_spaces predicate.now)) }
{
    match predicate {
        Some(predicate) => add_predicate(alloc, spaces, predicate),
        None => Ok(()),
    }
}

#[cycle(adding)]
fn add_predicate(
    alloc: Global,
    spaces: &mut Vec<Text>,
    predicate: &Predicate,
) -> Result<(), NoMemory>
    ensures { OnOk result (spaces.new.items
        ≡ with_each spaces.old.items (predicate_spaces predicate.now)) }
{
    match predicate {
        Predicate::Attr { .. } => Ok(()),
        Predicate::Child { name, .. } => add_space(alloc, spaces, &name.space),
        Predicate::And(parts) => add_parts(alloc, spaces, parts),
        Predicate::Or(parts) => add_parts(alloc, spaces, parts),
    }
}

#[cycle(adding)]
fn add_parts(alloc: Global, spaces: &mut Vec<Text>, parts: &Many<Predicate>) -> Result<(), NoMemory>
    ensures { OnOk result (spaces.new.items
        ≡ with_each spaces.old.items (flat_map predicate_spaces parts.now)) }
{
    for part in parts.as_slice() {
        add_predicate(alloc, spaces, part)?;
    }
    Ok(())
}

// Puts the namespace at the end, unless it is there or needs no place.
fn add_space(alloc: Global, spaces: &mut Vec<Text>, space: &Text) -> Result<(), NoMemory>
    ensures { OnOk result (spaces.new.items ≡ with_space spaces.old.items space.now) }
{
    if has_space(spaces.as_slice(), space) {
        return Ok(());
    }
    spaces.push(space.copy(alloc)?)?;
    Ok(())
}
