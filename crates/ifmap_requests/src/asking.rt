//! The element of a request.
ghost use Rattle.std.specs.Prelude.{◌≡◌, true, IfSome, IsNone, None};
ghost use Rattle.std.specs.Str.{bytes_eq};
ghost use Rattle.ifmap_envelopes.specs.Spaces.{ifmap_space};
ghost use Rattle.ifmap_elem.specs.Building.{is_name};
ghost use Rattle.ifmap_requests.specs.declared.asking.RequestName.{RequestName};
ghost use Rattle.ifmap_forms.specs.Answers.{IsChecked, IsCheckedAs};
ghost use Rattle.ifmap_forms.specs.Scopes.{Scopes, scopes_by};
ghost use Rattle.ifmap_forms.specs.Tables.{form_check, read_form};
ghost use Rattle.ifmap_requests.specs.RequestForms.{asking_name, end_session_form, end_session_of, new_session_form, new_session_of, other_request_check, poll_form, poll_of, publish_form, publish_of, purge_form, purge_of, renew_form, renewal_of, request_check, search_form, search_of, session_alone, subscribe_form, subscribe_of};

use crate::operations::read_publish_ops;
use crate::requests::Request;
use crate::searching::read_search;
use crate::subscribing::read_subscribe_ops;
use ifmap_elem::{Element, Many, Name, Text};
use ifmap_envelopes::IFMAP_SPACE;
use ifmap_forms::parts::{are_blank, has_only};
use ifmap_forms::values::{read_limit, read_text};
use ifmap_forms::{FormError, MessagePlace};
use ifmap_ident::Code;
use std::alloc::Global;

// The request that an element at a place means.
pub(crate) fn read_element(
    alloc: Global,
    place: &MessagePlace<'_, '_>,
    element: Element,
) -> Result<Request, FormError>
    requires { place.now.child ≡ None }
    ensures { IsChecked
        (request_check (scopes_by place.now.declared.now place.now.path.now) element)
        result }
{
    if !is_asked(&element.name) {
        return Err(FormError::Named(Code::InvalidSchemaVersion));
    }
    if is_publish(&element.name) {
        return read_publish(alloc, place, element);
    }
    read_named(alloc, place, &element)
}

// Whether the name is in the namespace of requests.
fn is_asked(name: &Name) -> bool
    ensures { result ≡ bytes_eq name.now.space ifmap_space }
{
    name.space.as_str() == IFMAP_SPACE
}

fn is_publish(name: &Name) -> bool
    ensures { result ≡ is_name name.now publish_form.name }
{
    is_asked(name) && name.local.as_str() == "publish"
}

/// The name of a request that is no publish.
pub enum RequestName {
    NewSession,
    RenewSession,
    EndSession,
    Poll,
    Search,
    Subscribe,
    PurgePublisher,
}

fn request_named(local: &str) -> Option<RequestName>
    ensures found { IfSome result (λ asking. local.now ≡ asking_name asking) }
    ensures none { IsNone result → (asking : RequestName) → local.now ≡ asking_name asking → ⊥ }
{
    match local {
        "newSession" => Some(RequestName::NewSession),
        "renewSession" => Some(RequestName::RenewSession),
        "endSession" => Some(RequestName::EndSession),
        "poll" => Some(RequestName::Poll),
        "search" => Some(RequestName::Search),
        "subscribe" => Some(RequestName::Subscribe),
        "purgePublisher" => Some(RequestName::PurgePublisher),
        _ => None,
    }
}

// The request that an element means which is no publish.
fn read_named(
    alloc: Global,
    place: &MessagePlace<'_, '_>,
    element: &Element,
) -> Result<Request, FormError>
    requires place { place.now.child ≡ None }
    requires space { bytes_eq element.now.name.space ifmap_space ≡ true }
    ensures { IsChecked (other_request_check (scopes_by place.now.declared.now place.now.path.now)
        element.now) result }
{
    match request_named(element.name.local.as_str()) {
        Some(RequestName::NewSession) => read_new_session(element),
        Some(RequestName::RenewSession) => read_renewal(alloc, element),
        Some(RequestName::EndSession) => read_end_session(alloc, element),
        Some(RequestName::Poll) => read_poll(alloc, element),
        Some(RequestName::Search) => read_asked_search(alloc, place, element),
        Some(RequestName::Subscribe) => read_subscribe(alloc, place, element),
        Some(RequestName::PurgePublisher) => read_purge(alloc, element),
        None => Err(FormError::Named(Code::Failure)),
    }
}

fn read_renewal(alloc: Global, element: &Element) -> Result<Request, FormError>
    ensures { (scopes : Scopes) → IsChecked (form_check renew_form renewal_of scopes element.now)
        result }
{
    let session = read_session(alloc, element)?;
    Ok(Request::RenewSession { session })
}

fn read_end_session(alloc: Global, element: &Element) -> Result<Request, FormError>
    ensures { (scopes : Scopes) → IsChecked (form_check end_session_form end_session_of scopes
        element.now) result }
{
    let session = read_session(alloc, element)?;
    Ok(Request::EndSession { session })
}

fn read_poll(alloc: Global, element: &Element) -> Result<Request, FormError>
    ensures { (scopes : Scopes) →
        IsChecked (form_check poll_form poll_of scopes element.now) result }
{
    let session = read_session(alloc, element)?;
    Ok(Request::Poll { session })
}

fn read_new_session(element: &Element) -> Result<Request, FormError>
    ensures { (scopes : Scopes) → IsChecked (form_check new_session_form new_session_of scopes
        element.now) result }
{
    let limit = read_limit(element)?;
    if !has_only(element, &["validation", "max-poll-result-size"]) {
        return Err(FormError::Named(Code::Failure));
    }
    if !are_blank(element.children.as_slice()) {
        return Err(FormError::Named(Code::Failure));
    }
    Ok(Request::NewSession { limit })
}

// The id of the session in a request that has nothing else.
fn read_session(alloc: Global, element: &Element) -> Result<Text, FormError>
    ensures { (scopes : Scopes) →
        IsCheckedAs session_alone (read_form renew_form scopes element.now)
        result }
{
    let session = read_text(alloc, element, "session-id")?;
    if !has_only(element, &["validation", "session-id"]) {
        return Err(FormError::Named(Code::Failure));
    }
    if !are_blank(element.children.as_slice()) {
        return Err(FormError::Named(Code::Failure));
    }
    Ok(session)
}

fn read_publish(
    alloc: Global,
    place: &MessagePlace<'_, '_>,
    element: Element,
) -> Result<Request, FormError>
    requires { place.now.child ≡ None }
    ensures { IsChecked (form_check publish_form publish_of (scopes_by place.now.declared.now
        place.now.path.now) element) result }
{
    let session = read_text(alloc, &element, "session-id")?;
    if !has_only(&element, &["validation", "session-id"]) {
        return Err(FormError::Named(Code::Failure));
    }
    let children = element.children;
    let ops = read_publish_ops(alloc, place, children.0)?;
    Ok(Request::Publish { session, ops })
}

fn read_asked_search(
    alloc: Global,
    place: &MessagePlace<'_, '_>,
    element: &Element,
) -> Result<Request, FormError>
    requires { place.now.child ≡ None }
    ensures { IsChecked (form_check search_form search_of (scopes_by place.now.declared.now
        place.now.path.now) element.now) result }
{
    let session = read_text(alloc, element, "session-id")?;
    let search = read_search(
        alloc,
        place,
        element,
        &[
            "validation",
            "session-id",
            "match-links",
            "max-depth",
            "max-size",
            "result-filter",
            "terminal-identifier-type",
        ],
    )?;
    Ok(Request::Search { session, search })
}

fn read_subscribe(
    alloc: Global,
    place: &MessagePlace<'_, '_>,
    element: &Element,
) -> Result<Request, FormError>
    requires { place.now.child ≡ None }
    ensures { IsChecked (form_check subscribe_form subscribe_of (scopes_by place.now.declared.now
        place.now.path.now) element.now) result }
{
    let session = read_text(alloc, element, "session-id")?;
    if !has_only(element, &["validation", "session-id"]) {
        return Err(FormError::Named(Code::Failure));
    }
    let ops = read_subscribe_ops(alloc, place, element.children.as_slice())?;
    Ok(Request::Subscribe { session, ops })
}

fn read_purge(alloc: Global, element: &Element) -> Result<Request, FormError>
    ensures { (scopes : Scopes) →
        IsChecked (form_check purge_form purge_of scopes element.now) result }
{
    let session = read_text(alloc, element, "session-id")?;
    let publisher = read_text(alloc, element, "ifmap-publisher-id")?;
    if !has_only(element, &["validation", "session-id", "ifmap-publisher-id"]) {
        return Err(FormError::Named(Code::Failure));
    }
    if !are_blank(element.children.as_slice()) {
        return Err(FormError::Named(Code::Failure));
    }
    Ok(Request::PurgePublisher { session, publisher })
}
