//! Whether a tag is allowed, and the element that it opens.
ghost use Rattle.std.specs.Prelude.{◌≡◌, reverse, IfOk};
ghost use Rattle.ifmap_elem.specs.Scopes.{prefix_space, root_scope};
ghost use Rattle.ifmap_reader.specs.OpenElements.{AreLinked, CountsBindings};
ghost use Rattle.ifmap_reader.specs.AllowedTags.{AnswersAttributes, AnswersAttribute, TagAnswer, plain_part, scope_inside};

use crate::bindings::{Bindings, XML, bindings_of, bound_prefix};
use crate::declarations::ReversedDeclarations;
use crate::differing::have_other_names;
use crate::errors::TokenRefusal;
use crate::open_elements::OpenElement;
use ifmap_elem::tokens::{Assignment, Tag};
use ifmap_elem::{Attribute, Copied, Many, Name, Text, XML_SPACE};
use std::alloc::{AllocError as NoMemory, Global};

// The element that a tag opens within the open elements, the innermost last.
#[inline(always)]
pub(crate) fn open_element(
    alloc: Global,
    open_elements: &[OpenElement],
    tag: Tag,
) -> Result<OpenElement, TokenRefusal>
    requires { AreLinked (reverse open_elements.now) }
    ensures { TagAnswer (reverse open_elements.now) tag result }
{
    let Tag { name, assignments } = tag;
    let bindings = bindings_of(alloc, assignments.as_slice())?;
    let Some(space) = space_of(alloc, &bindings, open_elements, &name.prefix)? else {
        return Err(TokenRefusal::NotAllowed);
    };
    let attributes = attributes_of(alloc, &bindings, open_elements, assignments)?;
    if !have_other_names(alloc, attributes.as_slice())? {
        return Err(TokenRefusal::NotAllowed);
    }
    let declaring = innermost_declaring(&bindings, open_elements);
    Ok(OpenElement {
        prefix: name.prefix,
        name: Name {
            space,
            local: name.local,
        },
        attributes,
        bindings,
        declaring,
        children: Many(Vec::new(alloc)),
        text: Text(String::new(alloc)),
        below: ReversedDeclarations::new(alloc),
    })
}

// How many open elements stand up to the innermost that binds a prefix, where one with these bindings
// is opened within those.
#[inline(always)]
fn innermost_declaring(bindings: &Bindings, open_elements: &[OpenElement]) -> usize
    requires { AreLinked (reverse open_elements.now) }
    ensures { CountsBindings bindings.now result (reverse open_elements.now) }
{
    let count = open_elements.len();
    if !bindings.is_empty() {
        return count + 1;
    }
    if count == 0 {
        return 0;
    }
    open_elements[count - 1].declaring
}

// What a prefix is bound to within a tag with these bindings.
fn space_of(
    alloc: Global,
    bindings: &Bindings,
    open_elements: &[OpenElement],
    prefix: &Text,
) -> Result<Option<Text>, NoMemory>
    requires { AreLinked (reverse open_elements.now) }
    ensures { IfOk result (λ space.
        space ≡ prefix_space (scope_inside bindings.now open_elements.now) prefix.now) }
{
    if let Some(space) = bindings.space_of(prefix) {
        return Ok(Some(space.copy(alloc)?));
    }
    let mut outer = open_elements.len();
    while outer > 0 {
        let element = &open_elements[outer - 1];
        if element.declaring < outer {
            outer = element.declaring;
            continue;
        }
        if let Some(space) = element.bindings.space_of(prefix) {
            return Ok(Some(space.copy(alloc)?));
        }
        outer -= 1;
    }
    root_space_of(alloc, prefix)
}

// What a prefix is bound to where no tag binds it.
fn root_space_of(alloc: Global, prefix: &Text) -> Result<Option<Text>, NoMemory>
    ensures { IfOk result (λ space. space ≡ prefix_space root_scope prefix.now) }
{
    if prefix.as_bytes() == XML.as_bytes() {
        return Ok(Some(Text(String::from_str(alloc, XML_SPACE)?)));
    }
    if prefix.is_empty() {
        return Ok(Some(Text(String::new(alloc))));
    }
    Ok(None)
}

// The attributes that the assignments of a tag give.
#[inline(always)]
fn attributes_of(
    alloc: Global,
    bindings: &Bindings,
    open_elements: &[OpenElement],
    assignments: Many<Assignment>,
) -> Result<Many<Attribute>, TokenRefusal>
    requires { AreLinked (reverse open_elements.now) }
    ensures { AnswersAttributes (scope_inside bindings.now open_elements.now)
        (plain_part assignments) result }
{
    let Many(mut left) = assignments;
    let mut made = Vec::with_capacity(alloc, left.len())?;
    left.reverse();
    while let Some(assignment) = left.pop() {
        if bound_prefix(&assignment).is_some() {
            continue;
        }
        made.push(attribute_of(alloc, bindings, open_elements, assignment)?)?;
    }
    Ok(Many(made))
}

// The attribute that an assignment gives.
fn attribute_of(
    alloc: Global,
    bindings: &Bindings,
    open_elements: &[OpenElement],
    assignment: Assignment,
) -> Result<Attribute, TokenRefusal>
    requires { AreLinked (reverse open_elements.now) }
    ensures { AnswersAttribute (scope_inside bindings.now open_elements.now) assignment result }
{
    let Assignment { name, value } = assignment;
    let local = name.local;
    if name.prefix.is_empty() {
        let space = Text(String::new(alloc));
        let name = Name { space, local };
        return Ok(Attribute { name, value });
    }
    let Some(space) = space_of(alloc, bindings, open_elements, &name.prefix)? else {
        return Err(TokenRefusal::NotAllowed);
    };
    let name = Name { space, local };
    Ok(Attribute { name, value })
}
