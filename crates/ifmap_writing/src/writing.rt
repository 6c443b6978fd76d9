//! Requests as elements and as bytes.
ghost use Rattle.std.specs.Prelude.{◌≡◌, [], IfOk};
ghost use Rattle.ifmap_requests.specs.ifmap_envelopes.Envelopes.{element_around, in_envelope};
ghost use Rattle.ifmap_requests.specs.ifmap_envelopes.Spaces.{ifmap_space};
ghost use Rattle.ifmap_writing.specs.RequestElements.{asking_element, element_in, request_bytes, request_element};
ghost use Rattle.ifmap_writing.specs.Attributes.{values_of_session};
ghost use Rattle.ifmap_writing.specs.RequestSpaces.{ServeRequest, request_spaces};

use crate::attributes::{
    limit_attributes, purge_attributes, search_attributes, session_attributes,
};
use crate::children::start_children;
use crate::operations::{publish_children, subscribe_children};
use crate::spaces::request_spaces;
use ifmap_elem::{Attribute, Child, Element, Many, Name, Text, written};
use ifmap_filter::laws::listed_spaces_serve_each_filter;
use ifmap_requests::{ENVELOPE_SPACE, IFMAP_SPACE, Request};
use std::alloc::{AllocError as NoMemory, Global};

/// The element of a request, its attributes in order at every level, and the namespaces of its
/// filters, each once, in the order of first occurrence, but for none and that of `xml`: by the
/// prefixes `f1`, `f2` and so on the filters name them. The one error is want of memory.
#[tactic(auto, using(crate::proofs::SpaceLaws::own_serve))]
pub fn request_element(alloc: Global, request: &Request) -> Result<(Element, Many<Text>), NoMemory>
    ensures element { IfOk result (λ made. made.0 ≡ request_element request.now) }
    ensures spaces { IfOk result (λ made. made.1 ≡ request_spaces request.now) }
{
    listed_spaces_serve_each_filter();
    let spaces = request_spaces(alloc, request)?;
    let element = element_in(alloc, &spaces, request)?;
    Ok((element, spaces))
}

/// The bytes of a request in its envelope, as a client sends them. The one error is want of memory.
#[tactic(auto, unfolding(crate::specs::RequestElements::request_bytes))]
pub fn write_request(alloc: Global, request: &Request) -> Result<Many<u8>, NoMemory>
    ensures { IfOk result (λ bytes. bytes ≡ request_bytes request.now) }
{
    let (element, spaces) = request_element(alloc, request)?;
    let envelope = in_envelope(alloc, element)?;
    written(alloc, &envelope, &spaces)
}

// The element of a request, whose filters name these namespaces.
fn element_in(alloc: Global, spaces: &Many<Text>, request: &Request) -> Result<Element, NoMemory>
    requires { ServeRequest spaces.now request.now }
    ensures { IfOk result (λ element. element ≡ element_in spaces.now request.now) }
{
    match request {
        Request::NewSession { limit } => {
            asking_element(
                alloc,
                "newSession",
                limit_attributes(alloc, *limit)?,
                Vec::new(alloc),
            )
        }
        Request::RenewSession { session } => session_element(alloc, "renewSession", session),
        Request::EndSession { session } => session_element(alloc, "endSession", session),
        Request::Publish { session, ops } => {
            let attributes = session_attributes(alloc, session)?;
            let children = publish_children(alloc, spaces, ops.as_slice())?;
            asking_element(alloc, "publish", attributes, children)
        }
        Request::Search { session, search } => {
            let attributes = search_attributes(alloc, spaces, session, search)?;
            let children = start_children(alloc, &search.start)?;
            asking_element(alloc, "search", attributes, children)
        }
        Request::Subscribe { session, ops } => {
            let attributes = session_attributes(alloc, session)?;
            let children = subscribe_children(alloc, spaces, ops.as_slice())?;
            asking_element(alloc, "subscribe", attributes, children)
        }
        Request::Poll { session } => session_element(alloc, "poll", session),
        Request::PurgePublisher { session, publisher } => {
            let attributes = purge_attributes(alloc, session, publisher)?;
            asking_element(alloc, "purgePublisher", attributes, Vec::new(alloc))
        }
    }
}

// A request that has the id of a session alone.
fn session_element(alloc: Global, local: &str, session: &Text) -> Result<Element, NoMemory>
    ensures { IfOk result (λ element.
        element ≡ asking_element local.now (values_of_session session.now) []) }
{
    asking_element(
        alloc,
        local,
        session_attributes(alloc, session)?,
        Vec::new(alloc),
    )
}

// An element in the namespace of requests.
fn asking_element(
    alloc: Global,
    local: &str,
    attributes: Vec<Attribute>,
    children: Vec<Child>,
) -> Result<Element, NoMemory>
    ensures { IfOk result (λ element. element ≡ record {
      name = record { space = ifmap_space; local = local.now };
      attributes = attributes.items;
      children = children.items;
    }) }
{
    Ok(Element {
        name: Name::new(alloc, IFMAP_SPACE, local)?,
        attributes: Many(attributes),
        children: Many(children),
    })
}

fn in_envelope(alloc: Global, inner: Element) -> Result<Element, NoMemory>
    ensures { IfOk result (λ element. element ≡ in_envelope inner) }
{
    let body = wrap_element(alloc, ENVELOPE_SPACE, "Body", inner)?;
    wrap_element(alloc, ENVELOPE_SPACE, "Envelope", body)
}

// An element in a namespace that holds one other and nothing else.
fn wrap_element(
    alloc: Global,
    space: &str,
    local: &str,
    inner: Element,
) -> Result<Element, NoMemory>
    ensures { IfOk result (λ element.
        element ≡ element_around (record { space = space.now; local = local.now }) inner) }
{
    let mut children = Vec::new(alloc);
    children.push(Child::Element(inner))?;
    Ok(Element {
        name: Name::new(alloc, space, local)?,
        attributes: Many(Vec::new(alloc)),
        children: Many(children),
    })
}
