//! Results, as outlines of their elements.
ghost use Rattle.std.specs.Prelude.{◌≡◌, ◌∷◌, [], codes, map, IfOk};
ghost use Rattle.std.specs.Option.{option_copied};
ghost use Rattle.ifmap_replies.specs.Results.{error_element, name_attribute, name_attributes, new_session_element, plain_element, poll_element, result_element, text_children, told_element};
ghost use Rattle.ifmap_elem.specs.Building.{bare_attribute, as_children};
ghost use Rattle.ifmap_elem.specs.Outlines.{outline_child, outline_element};
ghost use Rattle.ifmap_ident.specs.Codes.{code_name};

use crate::replies::Reply;
use crate::runs::entry_pieces;
use ifmap_elem::{Outline, OutlineAttribute, Piece, Text};
use ifmap_ident::Code;
use ifmap_search::{Entry, PollItem};
use std::alloc::{AllocError as NoMemory, Global};

// The result that a reply is.
pub(crate) fn result_of<'a>(alloc: Global, reply: &'a Reply) -> Result<Outline<'a>, NoMemory>
    ensures { IfOk result (λ outline. outline_element outline ≡ result_element reply.now) }
{
    match reply {
        Reply::NewSession {
            session,
            publisher,
            limit,
        } => new_session_result(alloc, session, publisher, *limit),
        Reply::Renewed => Ok(empty_result(alloc, "renewSessionResult")),
        Reply::Ended => Ok(empty_result(alloc, "endSessionResult")),
        Reply::Published => Ok(empty_result(alloc, "publishReceived")),
        Reply::Subscribed => Ok(empty_result(alloc, "subscribeReceived")),
        Reply::Purged => Ok(empty_result(alloc, "purgePublisherReceived")),
        Reply::Found(entries) => {
            let pieces = entry_pieces(alloc, entries.as_slice())?;
            Ok(plain_result(alloc, "searchResult", pieces))
        }
        Reply::Polled(items) => {
            let pieces = poll_pieces(alloc, items.as_slice())?;
            Ok(plain_result(alloc, "pollResult", pieces))
        }
        Reply::Error { code, note } => error_result(alloc, *code, None, note),
    }
}

fn empty_result<'a>(alloc: Global, local: &'a str) -> Outline<'a>
    ensures { outline_element result ≡ plain_element local.now [] }
{
    plain_result(alloc, local, Vec::new(alloc))
}

// A result without attributes.
fn plain_result<'a>(alloc: Global, local: &'a str, pieces: Vec<Piece<'a>>) -> Outline<'a>
    ensures { outline_element result
        ≡ plain_element local.now (map outline_child pieces.entry.items) }
{
    Outline::with_local(local, Vec::new(alloc), pieces)
}

fn new_session_result<'a>(
    alloc: Global,
    session: &'a Text,
    publisher: &'a Text,
    limit: u32,
) -> Result<Outline<'a>, NoMemory>
    ensures { IfOk result (λ outline.
        outline_element outline ≡ new_session_element session.now publisher.now limit) }
{
    let attributes = vec![in alloc;
        OutlineAttribute::from_str("ifmap-publisher-id", publisher.as_str()),
        OutlineAttribute::from_text(
            "max-poll-result-size",
            Text::from_number(alloc, u64::from(limit))?
        ),
        OutlineAttribute::from_str("session-id", session.as_str()),
    ]?;
    Ok(Outline::with_local("newSessionResult", attributes, Vec::new(alloc)))
}

// What a poll is told, as pieces.
fn poll_pieces<'a>(alloc: Global, items: &'a [PollItem]) -> Result<Vec<Piece<'a>>, NoMemory>
    ensures { IfOk result (λ pieces.
        map outline_child pieces.items ≡ as_children (map poll_element items.now)) }
{
    let mut pieces = Vec::with_capacity(alloc, items.len())?;
    for item in items {
        let told = poll_result(alloc, item)?;
        pieces.push(told.into_piece())?;
    }
    Ok(pieces)
}

fn poll_result<'a>(alloc: Global, item: &'a PollItem) -> Result<Outline<'a>, NoMemory>
    ensures { IfOk result (λ outline. outline_element outline ≡ poll_element item.now) }
{
    match item {
        PollItem::Search { name, entries } => {
            told_result(alloc, "searchResult", name, entries.as_slice())
        }
        PollItem::Update { name, entries } => {
            told_result(alloc, "updateResult", name, entries.as_slice())
        }
        PollItem::Delete { name, entries } => {
            told_result(alloc, "deleteResult", name, entries.as_slice())
        }
        PollItem::Notify { name, entries } => {
            told_result(alloc, "notifyResult", name, entries.as_slice())
        }
        PollItem::Error { name, code, note } => error_result(alloc, *code, name.as_ref(), note),
    }
}

// A result under the name of a subscription.
fn told_result<'a>(
    alloc: Global,
    local: &'a str,
    name: &'a Text,
    entries: &'a [Entry],
) -> Result<Outline<'a>, NoMemory>
    ensures { IfOk result (λ outline.
        outline_element outline ≡ told_element local.now name.now entries.now) }
{
    let attributes = vec![in alloc; name_attribute(name)]?;
    let pieces = entry_pieces(alloc, entries)?;
    Ok(Outline::with_local(local, attributes, pieces))
}

fn name_attribute<'a>(name: &'a Text) -> OutlineAttribute<'a>
    ensures { result ≡ name_attribute name.now }
{
    OutlineAttribute::from_str("name", name.as_str())
}

// The result of an error, under the name of a subscription where there is one.
fn error_result<'a>(
    alloc: Global,
    code: Code,
    name: Option<&'a Text>,
    note: &'a Text,
) -> Result<Outline<'a>, NoMemory>
    ensures { IfOk result (λ outline.
        outline_element outline ≡ error_element code (option_copied name.entry) note.now) }
{
    let attributes = error_attributes(alloc, code, name)?;
    let string = Outline::with_local("errorString", Vec::new(alloc), text_pieces(alloc, note)?);
    let pieces = vec![in alloc; string.into_piece()]?;
    Ok(Outline::with_local("errorResult", attributes, pieces))
}

fn error_attributes<'a>(
    alloc: Global,
    code: Code,
    name: Option<&'a Text>,
) -> Result<Vec<OutlineAttribute<'a>>, NoMemory>
    ensures { IfOk result (λ attributes. attributes.items
        ≡ bare_attribute (codes "errorCode") (code_name code)
        ∷ name_attributes (option_copied name.entry)) }
{
    let mut attributes = Vec::with_capacity(alloc, 2)?;
    attributes.push(OutlineAttribute::from_str("errorCode", code.name()))?;
    if let Some(name) = name {
        attributes.push(name_attribute(name))?;
    }
    Ok(attributes)
}

// A text as pieces: an empty one is none.
fn text_pieces<'a>(alloc: Global, text: &'a Text) -> Result<Vec<Piece<'a>>, NoMemory>
    ensures { IfOk result (λ pieces.
        map outline_child pieces.items ≡ text_children text.now) }
{
    if text.is_empty() {
        return Ok(Vec::new(alloc));
    }
    let pieces = vec![in alloc; Piece::text(text)]?;
    Ok(pieces)
}
