//! What a poll is told, read from elements.
ghost use Rattle.std.specs.Prelude.{◌≡◌};
ghost use Rattle.ifmap_forms.specs.Answers.{IsChecked};
ghost use Rattle.ifmap_forms.specs.Tables.{form_check};
ghost use Rattle.ifmap_replies.specs.ResultForms.{no_scopes, poll_check, poll_kind_check, told_error_form, told_error_made, told_form, told_item, told_made};

use crate::entry_lists::read_entries;
use crate::kinds::{EntriesKind, PollKind, poll_kind_of};
use crate::notes::read_note;
use crate::values::{read_code, read_optional};
use ifmap_elem::{Element, Many, Text};
use ifmap_forms::FormError;
use ifmap_forms::members::MemberReader;
use ifmap_forms::parts::has_only;
use ifmap_forms::values::read_text;
use ifmap_ident::Code;
use ifmap_search::{Entry, PollItem};
use std::alloc::Global;

/// A reader of what a poll is told.
pub struct PollItemReader;

impl MemberReader for PollItemReader {
    ghost use Rattle.ifmap_replies.specs.ResultForms.{poll_check};

    type Member = PollItem;

    ghost finds = { poll_check };

    fn read_member(alloc: Global, element: Element) -> Result<PollItem, FormError> {
        read_poll_item(alloc, element)
    }
}

fn read_poll_item(alloc: Global, element: Element) -> Result<PollItem, FormError>
    ensures { IsChecked (poll_check element) result }
{
    match poll_kind_of(&element.name) {
        Some(kind) => read_poll_kind(alloc, kind, element),
        None => Err(FormError::Named(Code::Failure)),
    }
}

fn read_poll_kind(alloc: Global, kind: PollKind, element: Element) -> Result<PollItem, FormError>
    ensures { IsChecked (poll_kind_check kind element) result }
{
    match kind {
        PollKind::Entries(kind) => read_told(alloc, kind, element),
        PollKind::Error => read_told_error(alloc, element),
    }
}

// Entries of this kind under the name of a subscription.
fn read_told(alloc: Global, kind: EntriesKind, element: Element) -> Result<PollItem, FormError>
    ensures { IsChecked (form_check (told_form kind) (told_made kind) no_scopes element) result }
{
    let name = read_text(alloc, &element, "name")?;
    if !has_only(&element, &["name"]) {
        return Err(FormError::Named(Code::Failure));
    }
    let children = element.children;
    let entries = read_entries(alloc, children.0)?;
    Ok(told_item(kind, name, entries))
}

fn told_item(kind: EntriesKind, name: Text, entries: Many<Entry>) -> PollItem
    ensures { result ≡ told_item kind name entries }
{
    match kind {
        EntriesKind::Search => PollItem::Search { name, entries },
        EntriesKind::Update => PollItem::Update { name, entries },
        EntriesKind::Delete => PollItem::Delete { name, entries },
        EntriesKind::Notify => PollItem::Notify { name, entries },
    }
}

fn read_told_error(alloc: Global, element: Element) -> Result<PollItem, FormError>
    ensures { IsChecked (form_check told_error_form told_error_made no_scopes element) result }
{
    let code = read_code(&element)?;
    let name = read_optional(alloc, &element, "name")?;
    if !has_only(&element, &["errorCode", "name"]) {
        return Err(FormError::Named(Code::Failure));
    }
    let children = element.children;
    let note = read_note(alloc, children.0)?;
    Ok(PollItem::Error { name, code, note })
}
