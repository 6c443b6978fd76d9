//! Replies, read from responses.
ghost use Rattle.std.specs.Prelude.{◌≡◌, ◌++◌, ◌∷◌, [], IfOk};
ghost use Rattle.ifmap_elem.specs.Building.{is_name};
ghost use Rattle.ifmap_forms.specs.Answers.{IsChecked};
ghost use Rattle.ifmap_forms.specs.Tables.{form_check};
ghost use Rattle.ifmap_replies.specs.Results.{response_name};
ghost use Rattle.ifmap_replies.specs.ResultForms.{error_form, error_made, found_form, found_made, session_result_form, new_session_made, no_scopes, plain_check, polled_form, polled_made, response_check, response_form, response_made, result_check, result_kind_check};
ghost use Rattle.ifmap_replies.specs.declared.kinds.ResultKind.{ResultKind};

use crate::entry_lists::read_entries;
use crate::kinds::{ResultKind, result_kind_of};
use crate::members::read_only_member;
use crate::notes::read_note;
use crate::polls::PollItemReader;
use crate::replies::Reply;
use crate::values::{read_code, read_word};
use ifmap_elem::{Element, Many, Name};
use ifmap_envelopes::IFMAP_SPACE;
use ifmap_forms::FormError;
use ifmap_forms::members::{MemberReader, read_members};
use ifmap_forms::parts::{are_blank, has_only};
use ifmap_forms::values::read_text;
use ifmap_ident::Code;
use std::alloc::Global;

// The reply of a response.
pub(crate) fn read_response(alloc: Global, element: Element) -> Result<Reply, FormError>
    ensures { IsChecked (response_check element) result }
{
    if !is_response(&element.name) {
        return Err(FormError::Named(Code::Failure));
    }
    read_response_inside(alloc, element)
}

fn is_response(name: &Name) -> bool
    ensures { result ≡ is_name name.now response_name }
{
    name.space.as_str() == IFMAP_SPACE && name.local.as_str() == "response"
}

fn read_response_inside(alloc: Global, element: Element) -> Result<Reply, FormError>
    ensures { IsChecked (form_check response_form response_made no_scopes element) result }
{
    if !has_only(&element, &[]) {
        return Err(FormError::Named(Code::Failure));
    }
    let children = element.children;
    read_only_member::<ResultReader>(alloc, children.0)
}

struct ResultReader;

impl MemberReader for ResultReader {
    ghost use Rattle.ifmap_replies.specs.ResultForms.{result_check};

    type Member = Reply;

    ghost finds = { result_check };

    fn read_member(alloc: Global, element: Element) -> Result<Reply, FormError> {
        read_result(alloc, element)
    }
}

fn read_result(alloc: Global, element: Element) -> Result<Reply, FormError>
    ensures { IsChecked (result_check element) result }
{
    match result_kind_of(&element.name) {
        Some(kind) => read_result_kind(alloc, kind, element),
        None => Err(FormError::Named(Code::Failure)),
    }
}

fn read_result_kind(alloc: Global, kind: ResultKind, element: Element) -> Result<Reply, FormError>
    ensures { IsChecked (result_kind_check kind element) result }
{
    match kind {
        ResultKind::NewSession => read_new_session(alloc, &element),
        ResultKind::Renewed => read_plain(&element, Reply::Renewed),
        ResultKind::Ended => read_plain(&element, Reply::Ended),
        ResultKind::Published => read_plain(&element, Reply::Published),
        ResultKind::Subscribed => read_plain(&element, Reply::Subscribed),
        ResultKind::Purged => read_plain(&element, Reply::Purged),
        ResultKind::Found => read_found(alloc, element),
        ResultKind::Polled => read_polled(alloc, element),
        ResultKind::Error => read_error(alloc, element),
    }
}

fn read_new_session(alloc: Global, element: &Element) -> Result<Reply, FormError>
    ensures { IsChecked (form_check session_result_form new_session_made no_scopes element.now)
        result }
{
    let publisher = read_text(alloc, element, "ifmap-publisher-id")?;
    let limit = read_word(element, "max-poll-result-size")?;
    let session = read_text(alloc, element, "session-id")?;
    if !has_only(
        element,
        &["ifmap-publisher-id", "max-poll-result-size", "session-id"],
    ) {
        return Err(FormError::Named(Code::Failure));
    }
    if !are_blank(element.children.as_slice()) {
        return Err(FormError::Named(Code::Failure));
    }
    Ok(Reply::NewSession {
        session,
        publisher,
        limit,
    })
}

// This reply, where the element has neither attributes nor children.
fn read_plain(element: &Element, reply: Reply) -> Result<Reply, FormError>
    ensures { (kind : ResultKind) → IsChecked (plain_check kind reply element.now) result }
{
    if !has_only(element, &[]) {
        return Err(FormError::Named(Code::Failure));
    }
    if !are_blank(element.children.as_slice()) {
        return Err(FormError::Named(Code::Failure));
    }
    Ok(reply)
}

fn read_found(alloc: Global, element: Element) -> Result<Reply, FormError>
    ensures { IsChecked (form_check found_form found_made no_scopes element) result }
{
    if !has_only(&element, &[]) {
        return Err(FormError::Named(Code::Failure));
    }
    let children = element.children;
    let entries = read_entries(alloc, children.0)?;
    Ok(Reply::Found(entries))
}

fn read_polled(alloc: Global, element: Element) -> Result<Reply, FormError>
    ensures { IsChecked (form_check polled_form polled_made no_scopes element) result }
{
    if !has_only(&element, &[]) {
        return Err(FormError::Named(Code::Failure));
    }
    let children = element.children;
    let items = read_members::<PollItemReader>(alloc, children.0)?;
    Ok(Reply::Polled(Many(items)))
}

fn read_error(alloc: Global, element: Element) -> Result<Reply, FormError>
    ensures { IsChecked (form_check error_form error_made no_scopes element) result }
{
    let code = read_code(&element)?;
    if !has_only(&element, &["errorCode"]) {
        return Err(FormError::Named(Code::Failure));
    }
    let children = element.children;
    let note = read_note(alloc, children.0)?;
    Ok(Reply::Error { code, note })
}
