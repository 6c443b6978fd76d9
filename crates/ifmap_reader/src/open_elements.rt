//! The elements that are open.
ghost use Rattle.std.specs.Prelude.{◌≡◌, ◌↔◌, ◌∷◌, [], ◌++◌, map, length, IfOk, IsTrue, OnOk};
ghost use Rattle.ifmap_elem.specs.Document.{from_above};
ghost use Rattle.ifmap_reader.specs.OpenElements.{Closes, is_child_text, text_child, with_inner, with_characters, written_name};

use crate::bindings::Bindings;
use crate::declarations::ReversedDeclarations;
use ifmap_elem::tokens::Qualified;
use ifmap_elem::white_space::is_white_alone;
use ifmap_elem::{Attribute, Child, Element, Equals, Many, Name, Text};
use std::alloc::{AllocError as NoMemory, Global};
use std::mem;

// An element that is open.
#[derive(Drop)]
pub(crate) struct OpenElement {
    // The prefix of its name, as it is written.
    pub prefix: Text,
    pub name: Name,
    pub attributes: Many<Attribute>,
    pub bindings: Bindings,
    // How many of the open elements, from the root on, stand up to the innermost that binds a prefix,
    // this one among them: what binds in it is bound by these.
    pub declaring: usize,
    // The children that are kept, up to the last element among them.
    pub children: Many<Child>,
    // The text after these.
    pub text: Text,
    // The declarations in the children, with their paths from this element on.
    pub below: ReversedDeclarations,
}

impl OpenElement {
    // Whether an end tag of this name ends the element.
    pub(crate) fn is_named(&self, name: &Qualified) -> bool
        ensures { IsTrue result ↔ (name.now ≡ written_name self.now) }
    {
        self.prefix.equals(&name.prefix) && self.name.local.equals(&name.local)
    }

    // Puts more text after its children.
    pub(crate) fn add_characters(&mut self, words: Text) -> Result<(), NoMemory>
        ensures { OnOk result (self.new ≡ with_characters self.old words) }
    {
        join(&mut self.text, words)
    }

    // Puts an element after its text as one more child, with the declarations in that.
    #[inline(always)]
    pub(crate) fn add_inner(
        &mut self,
        alloc: Global,
        element: Element,
        declared: ReversedDeclarations,
    ) -> Result<(), NoMemory>
        ensures { OnOk result (self.new ≡ with_inner self.old element declared) }
    {
        let text = mem::replace(&mut self.text, Text::new(alloc));
        let beside = true;
        add_text(&mut self.children, beside, text)?;
        add_below(alloc, &mut self.below, self.children.len(), declared)?;
        add_child(&mut self.children, Child::Element(element))
    }

    // The element, at its end, and the declarations in it.
    #[inline(always)]
    pub(crate) fn close(self, alloc: Global) -> Result<(Element, ReversedDeclarations), NoMemory>
        ensures { IfOk result (λ closed. Closes self [] closed.0 closed.1) }
    {
        let OpenElement {
            prefix: _,
            name,
            attributes,
            bindings,
            declaring: _,
            children,
            text,
            below,
        } = self;
        let mut children = children;
        let beside = !children.as_slice().is_empty();
        add_text(&mut children, beside, text)?;
        let declared = below.with_own(alloc, bindings)?;
        let element = Element {
            name,
            attributes,
            children,
        };
        Ok((element, declared))
    }
}

fn join(text: &mut Text, more: Text) -> Result<(), NoMemory>
    ensures { OnOk result (text.new ≡ text.old ++ more) }
{
    if text.is_empty() {
        *text = more;
        return Ok(());
    }
    text.push_str(more.as_str())
}

// Puts a text after the children, where it is kept.
#[inline(always)]
fn add_text(children: &mut Many<Child>, beside: bool, text: Text) -> Result<(), NoMemory>
    ensures { OnOk result (children.new ≡ children.old ++ text_child beside text) }
{
    if !is_kept_text(beside, text.as_bytes()) {
        return Ok(());
    }
    add_child(children, Child::Text(text))
}

// Whether a text is a child: beside an element it is none where it is white space alone.
fn is_kept_text(beside: bool, text: &[u8]) -> bool
    ensures { result ≡ is_child_text beside text.now }
{
    if beside {
        !is_white_alone(text)
    } else {
        !text.is_empty()
    }
}

// Puts a child after the others. The first takes room for itself alone, since most elements hold
// one text and nothing else.
#[inline(always)]
fn add_child(children: &mut Many<Child>, child: Child) -> Result<(), NoMemory>
    ensures { OnOk result (children.new ≡ children.old ++ child ∷ []) }
{
    if children.is_empty() {
        children.0.reserve_exact(1)?;
    }
    children.push(child)
}

// Puts the declarations in the child at this index after the others. Most children declare nothing.
#[inline(always)]
fn add_below(
    alloc: Global,
    below: &mut ReversedDeclarations,
    index: usize,
    declared: ReversedDeclarations,
) -> Result<(), NoMemory>
    ensures { OnOk result (below.new ≡ below.old ++ map (from_above index) declared) }
{
    if declared.is_empty() {
        return Ok(());
    }
    let others = mem::replace(below, ReversedDeclarations::new(alloc));
    *below = others.with_more(alloc, declared.raise(index)?)?;
    Ok(())
}
