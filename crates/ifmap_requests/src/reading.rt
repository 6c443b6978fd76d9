//! Requests, read from elements and bodies.
ghost use Rattle.std.specs.Prelude.{◌≡◌, ◌∷◌, [], IfSome, Some, slice_get};
ghost use Rattle.ifmap_elem.specs.InScope.{NamesElementAt};
ghost use Rattle.ifmap_elem.specs.declared.elements.Element.{Element};
ghost use Rattle.ifmap_forms.specs.Answers.{IsChecked};
ghost use Rattle.ifmap_forms.specs.Scopes.{scopes_by};
ghost use Rattle.ifmap_requests.specs.Means.{IsBodyAnswer, IsFormAnswer, IsReadingAnswer};
ghost use Rattle.ifmap_requests.specs.RequestForms.{request_check};

use crate::asking::read_element;
use crate::errors::Refusal;
use crate::requests::Request;
use ifmap_elem::laws::bytes_spell_one_element;
use ifmap_elem::{Child, Copied, Declared, Element, Reading};
use ifmap_envelopes::{Inner, open_envelope};
use ifmap_forms::places::narrow;
use ifmap_forms::{Declarations, FormError, MessagePlace};
use ifmap_ident::{ReadError, read};
use std::alloc::Global;

// How many levels a request can have.
const REQUEST_LEVELS: u32 = 64;

/// The request that the element with this path means, or the code of its first defect in the order of
/// the document.
pub fn request_of(alloc: Global, reading: &Reading, path: &[u32]) -> Result<Request, FormError>
    requires { (e : Element) × NamesElementAt reading.now.root path.now e }
    ensures { IsFormAnswer reading.now path.now result }
{
    let declared = reading.declared.as_slice();
    let Some(element) = element_at(&reading.root, path) else {
        return Err(FormError::NoMemory);
    };
    read_copy(alloc, declared, path, element)
}

// The request that a copy of the element means.
fn read_copy(
    alloc: Global,
    declared: &[Declared],
    path: &[u32],
    element: &Element,
) -> Result<Request, FormError>
    ensures { IsChecked (request_check (scopes_by declared.now path.now) element.now) result }
{
    let element = element.copy(alloc)?;
    read_at(alloc, declared, path, element)
}

// The request that the element with this path means.
fn read_at(
    alloc: Global,
    declared: &[Declared],
    path: &[u32],
    element: Element,
) -> Result<Request, FormError>
    ensures { IsChecked (request_check (scopes_by declared.now path.now) element) result }
{
    let declarations = Declarations::of(alloc, declared)?;
    let place = MessagePlace {
        declared: &declarations,
        path,
        child: None,
    };
    read_element(alloc, &place, element)
}

fn element_at<'a>(root: &'a Element, path: &[u32]) -> Option<&'a Element>
    ensures { IfSome result (λ e. NamesElementAt root.now path.now e.now) }
{
    let mut element = root;
    for index in path {
        element = child_at(element, *index as usize)?;
    }
    Some(element)
}

fn child_at(element: &Element, index: usize) -> Option<&Element>
    ensures { IfSome result (λ child.
        slice_get element.now.children index ≡ Some (Child.Element child.now)) }
{
    let children = &element.children;
    match children.as_slice().get(index) {
        Some(Child::Element(child)) => Some(child),
        _ => None,
    }
}

/// The request that a body means, the code of its first defect, or that it is no envelope.
pub fn read_request(alloc: Global, body: &[u8]) -> Result<Request, Refusal>
    ensures { IsBodyAnswer body.now result }
{
    bytes_spell_one_element();
    match read(alloc, body, REQUEST_LEVELS) {
        Ok(reading) => read_body(alloc, reading),
        Err(ReadError::Unreadable { .. }) => Err(Refusal::Unreadable),
        Err(ReadError::TooDeep { .. }) => Err(Refusal::Unreadable),
        Err(ReadError::NoMemory) => Err(Refusal::NoMemory),
    }
}

// The request that what was read means.
fn read_body(alloc: Global, reading: Reading) -> Result<Request, Refusal>
    ensures { IsReadingAnswer reading result }
{
    let Reading { root, declared } = reading;
    let Some(inner) = open_envelope(root) else {
        return Err(Refusal::Unreadable);
    };
    Ok(read_inner(alloc, declared.as_slice(), inner)?)
}

fn read_inner(alloc: Global, declared: &[Declared], inner: Inner) -> Result<Request, FormError>
    ensures { IsChecked (request_check (scopes_by declared.now (inner.body ∷ (inner.index ∷ [])))
        inner.element) result }
{
    let body = narrow(inner.body)?;
    let index = narrow(inner.index)?;
    read_at(alloc, declared, &[body, index], inner.element)
}
