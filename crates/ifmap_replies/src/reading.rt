//! Replies, read from elements and bodies.
ghost use Rattle.ifmap_replies.specs.Answers.{IsMeantReply};
ghost use Rattle.ifmap_replies.specs.Means.{IsReplyOf, MeansReply};

use crate::errors::ReplyError;
use crate::laws::elements_have_one_reply;
use crate::replies::Reply;
use crate::responses::read_response;
use ifmap_elem::laws::bytes_spell_one_element;
use ifmap_elem::{Copied, Element};
use ifmap_envelopes::open_envelope;
use ifmap_ident::{ReadError, read};
use std::alloc::Global;

// How many levels a reply can have.
const REPLY_LEVELS: u32 = 80;

/// The reply that an element means, an envelope of a response with one result; `NotAReply` exactly
/// where it means none.
pub fn reply_of(alloc: Global, element: &Element) -> Result<Reply, ReplyError>
    ensures { IsMeantReply (IsReplyOf element.now) result }
{
    let element = element.copy(alloc)?;
    read_envelope(alloc, element)
}

/// The reply that a body means in any spelling of its element; `NotAReply` exactly where it means
/// none, or has more than 80 levels.
pub fn read_reply(alloc: Global, body: &[u8]) -> Result<Reply, ReplyError>
    ensures { IsMeantReply (MeansReply body.now) result }
{
    bytes_spell_one_element();
    match read(alloc, body, REPLY_LEVELS) {
        Ok(reading) => read_envelope(alloc, reading.root),
        Err(ReadError::Unreadable { .. }) => Err(ReplyError::NotAReply),
        Err(ReadError::TooDeep { .. }) => Err(ReplyError::NotAReply),
        Err(ReadError::NoMemory) => Err(ReplyError::NoMemory),
    }
}

// The reply of an envelope. Elements of entries are moved out of it.
fn read_envelope(alloc: Global, root: Element) -> Result<Reply, ReplyError>
    ensures { IsMeantReply (IsReplyOf root) result }
{
    elements_have_one_reply();
    let Some(inner) = open_envelope(root) else {
        return Err(ReplyError::NotAReply);
    };
    Ok(read_response(alloc, inner.element)?)
}
