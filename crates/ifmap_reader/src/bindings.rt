//! The bindings of prefixes that one tag makes.
ghost use Rattle.std.specs.Prelude.{◌≡◌, ◌↔◌, ◌∷◌, [], ◌++◌, IfOk, IsTrue, None};
ghost use Rattle.std.specs.Bool.{OnTrue};
ghost use Rattle.std.specs.Option.{option_copied};
ghost use Rattle.ifmap_elem.specs.Scopes.{Binding, IsBinding, binding_of, prefix_space};
ghost use Rattle.ifmap_elem.specs.Document.{declared_here};
ghost use Rattle.ifmap_reader.specs.AllowedTags.{Binds, AnswersBindings, told_binding};

use crate::errors::TokenRefusal;
use ifmap_elem::tokens::Assignment;
use ifmap_elem::{Copied, Declared, Many, Text, XML_SPACE};
use std::alloc::{AllocError as NoMemory, Global};
use std::collections::BTreeMap;
use std::marker::Model;

const XMLNS: &str = "xmlns";

pub(crate) const XML: &str = "xml";

const XMLNS_SPACE: &str = "http://www.w3.org/2000/xmlns/";

// The bindings that a tag makes, in order, which contracts see as a list; and what each prefix is
// bound to.
#[derive(Drop)]
pub(crate) struct Bindings {
    rows: Vec<Declared>,
    spaces: BTreeMap<Text, Text>,
}

impl Model for Bindings {
    ghost use Rattle.std.specs.Prelude.{List, map};
    ghost use Rattle.std.specs.Ordering.{nat_cmp};
    ghost use Rattle.std.specs.Cmp.Lexicographic.{slice_cmp};
    ghost use Rattle.std.specs.BTreeMap.{get};
    ghost use Rattle.ifmap_elem.specs.Scopes.{Binding};
    ghost use Rattle.ifmap_elem.specs.InScope.{binding_told};
    ghost use Rattle.ifmap_reader.specs.Indexes.{AreIndexed};

    ghost Value = { List Binding };

    ghost view = { λ b. map binding_told b.rows.items };

    ghost invariant = { λ b. AreIndexed b.rows.items (get (slice_cmp nat_cmp) b.spaces) };
}

impl Bindings {
    pub(crate) fn new(alloc: Global) -> Bindings
        ensures { result ≡ [] }
    {
        Bindings {
            rows: Vec::new(alloc),
            spaces: BTreeMap::new(alloc),
        }
    }

    // Whether the tag binds no prefix.
    pub(crate) fn is_empty(&self) -> bool
        ensures { OnTrue result (self.now ≡ []) }
    {
        self.rows.is_empty()
    }

    // What the tag binds a prefix to. Most tags bind none.
    #[inline(always)]
    pub(crate) fn space_of(&self, prefix: &Text) -> Option<&Text>
        ensures { option_copied result ≡ prefix_space self.now prefix.now }
    {
        if self.is_empty() {
            return None;
        }
        self.spaces.get(prefix)
    }

    // With one binding more, of a prefix that has none.
    fn add_binding(self, alloc: Global, prefix: Text, space: Text) -> Result<Bindings, NoMemory>
        requires { prefix_space self prefix ≡ None }
        ensures { IfOk result (λ b. b ≡ self ++ record { prefix = prefix; space = space } ∷ []) }
    {
        let Bindings {
            mut rows,
            mut spaces,
        } = self;
        spaces.insert(prefix.copy(alloc)?, space.copy(alloc)?)?;
        let path = Many(Vec::new(alloc));
        rows.push(Declared {
            path,
            prefix,
            space,
        })?;
        Ok(Bindings { rows, spaces })
    }

    // The bindings as declarations at the tag's own element.
    pub(crate) fn into_declared(self) -> Many<Declared>
        ensures { result ≡ declared_here self }
    {
        let Bindings { rows, spaces: _ } = self;
        Many(rows)
    }

    // With the binding that an assignment makes, if it makes one.
    fn with_assignment(
        self,
        alloc: Global,
        assignment: &Assignment,
    ) -> Result<Bindings, TokenRefusal>
        ensures { Binds self (binding_of assignment.now) result }
    {
        let Some(prefix) = bound_prefix(assignment) else {
            return Ok(self);
        };
        let space = &assignment.value;
        if !may_bind(prefix, space.as_str()) {
            return Err(TokenRefusal::NotAllowed);
        }
        let prefix = Text(String::from_str(alloc, prefix)?);
        if self.space_of(&prefix).is_some() {
            return Err(TokenRefusal::NotAllowed);
        }
        let made = self.add_binding(alloc, prefix, space.copy(alloc)?)?;
        Ok(made)
    }
}

// The prefix that an assignment binds, which is empty for the default; none where the assignment
// gives an attribute.
pub(crate) fn bound_prefix(assignment: &Assignment) -> Option<&str>
    ensures { binding_of assignment.now ≡ told_binding result assignment.now.value }
{
    let name = &assignment.name;
    if name.prefix.as_bytes() == XMLNS.as_bytes() {
        return Some(name.local.as_str());
    }
    if name.prefix.is_empty() && name.local.as_bytes() == XMLNS.as_bytes() {
        return Some("");
    }
    None
}

fn may_bind(prefix: &str, space: &str) -> bool
    ensures { IsTrue result ↔ IsBinding (record { prefix = prefix.now; space = space.now }) }
{
    if is_word(prefix, XMLNS) {
        return false;
    }
    if is_word(space, XMLNS_SPACE) {
        return false;
    }
    if is_word(prefix, XML) {
        return is_word(space, XML_SPACE);
    }
    if is_word(space, XML_SPACE) {
        return false;
    }
    if is_word(prefix, "") {
        return true;
    }
    !is_word(space, "")
}

fn is_word(text: &str, word: &str) -> bool
    ensures { IsTrue result ↔ (text.now ≡ word.now) }
{
    text == word
}

// The bindings that the assignments of a tag make.
#[inline(always)]
pub(crate) fn bindings_of(
    alloc: Global,
    assignments: &[Assignment],
) -> Result<Bindings, TokenRefusal>
    ensures { AnswersBindings assignments.now result }
{
    let mut made = Bindings::new(alloc);
    for assignment in assignments {
        made = made.with_assignment(alloc, assignment)?;
    }
    Ok(made)
}
