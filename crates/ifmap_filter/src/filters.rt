//! Filters, with their copies and their equality.
ghost use Rattle.std.specs.Prelude.{◌≡◌, ◌↔◌, IfOk, IsTrue};

use ifmap_elem::{Copied, Equals, Many, Name, Text};
use std::alloc::{AllocError as NoMemory, Global};

/// What an element is asked for: an attribute in no namespace with a value, a child with a text, or
/// other predicates, all of them or one of them.
#[derive(Debug, Drop)]
pub enum Predicate {
    Attr { local: Text, value: Text },
    Child { name: Name, value: Text },
    And(Many<Predicate>),
    Or(Many<Predicate>),
}

/// A test of an element: its name, where one is asked for, and a predicate, where there is one.
#[derive(Debug, Drop)]
pub struct Test {
    pub name: Option<Name>,
    pub predicate: Option<Predicate>,
}

/// A filter, which is met where one of its tests is. Without tests it is never met.
#[derive(Debug, Drop)]
pub struct Filter {
    pub tests: Many<Test>,
}

impl Copied for Predicate {
    fn copy(&self, alloc: Global) -> Result<Self, NoMemory> {
        copy_predicate(alloc, self)
    }
}

#[cycle(copying)]
fn copy_predicate(alloc: Global, predicate: &Predicate) -> Result<Predicate, NoMemory>
    ensures { IfOk result (λ made. made ≡ predicate.now) }
{
    match predicate {
        Predicate::Attr { local, value } => Ok(Predicate::Attr {
            local: local.copy(alloc)?,
            value: value.copy(alloc)?,
        }),
        Predicate::Child { name, value } => Ok(Predicate::Child {
            name: name.copy(alloc)?,
            value: value.copy(alloc)?,
        }),
        Predicate::And(parts) => Ok(Predicate::And(copy_parts(alloc, parts)?)),
        Predicate::Or(parts) => Ok(Predicate::Or(copy_parts(alloc, parts)?)),
    }
}

#[cycle(copying)]
fn copy_parts(alloc: Global, parts: &Many<Predicate>) -> Result<Many<Predicate>, NoMemory>
    ensures { IfOk result (λ made. made ≡ parts.now) }
{
    let mut made = Vec::with_capacity(alloc, parts.len())?;
    for part in parts.as_slice() {
        made.push(copy_predicate(alloc, part)?)?;
    }
    Ok(Many(made))
}

impl Copied for Test {
    fn copy(&self, alloc: Global) -> Result<Self, NoMemory> {
        Ok(Test {
            name: self.name.copy(alloc)?,
            predicate: self.predicate.copy(alloc)?,
        })
    }
}

impl Copied for Filter {
    fn copy(&self, alloc: Global) -> Result<Self, NoMemory> {
        Ok(Filter {
            tests: self.tests.copy(alloc)?,
        })
    }
}

impl Equals for Predicate {
    fn equals(&self, other: &Predicate) -> bool {
        predicates_are_one(self, other)
    }
}

#[cycle(equal)]
fn predicates_are_one(one: &Predicate, other: &Predicate) -> bool
    ensures { IsTrue result ↔ (one.now ≡ other.now) }
{
    match (one, other) {
        (
            Predicate::Attr { local, value },
            Predicate::Attr {
                local: other_local,
                value: other_value,
            },
        ) => local.equals(other_local) && value.equals(other_value),
        (
            Predicate::Child { name, value },
            Predicate::Child {
                name: other_name,
                value: other_value,
            },
        ) => name.equals(other_name) && value.equals(other_value),
        (Predicate::And(one), Predicate::And(other)) => parts_are_one(one, other),
        (Predicate::Or(one), Predicate::Or(other)) => parts_are_one(one, other),
        _ => false,
    }
}

#[cycle(equal)]
fn parts_are_one(one: &Many<Predicate>, other: &Many<Predicate>) -> bool
    ensures { IsTrue result ↔ (one.now ≡ other.now) }
{
    if one.len() != other.len() {
        return false;
    }
    for i in 0..one.len() {
        if !predicates_are_one(&one.0[i], &other.0[i]) {
            return false;
        }
    }
    true
}

impl Equals for Test {
    fn equals(&self, other: &Test) -> bool {
        options_are_one(&self.name, &other.name)
            && options_are_one(&self.predicate, &other.predicate)
    }
}

fn options_are_one<T: Equals>(one: &Option<T>, other: &Option<T>) -> bool
    ensures { IsTrue result ↔ (one.now ≡ other.now) }
{
    match (one, other) {
        (Some(one), Some(other)) => one.equals(other),
        (None, None) => true,
        _ => false,
    }
}

impl Equals for Filter {
    fn equals(&self, other: &Filter) -> bool {
        self.tests.equals(&other.tests)
    }
}
