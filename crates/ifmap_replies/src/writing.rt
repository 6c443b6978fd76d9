//! Replies as elements and as bytes.
ghost use Rattle.std.specs.Prelude.{◌≡◌, IfOk};
ghost use Rattle.ifmap_elem.specs.Outlines.{outline_element};
ghost use Rattle.ifmap_envelopes.specs.Envelopes.{element_around};
ghost use Rattle.ifmap_replies.specs.Wrapping.{reply_names, wrap_element};
ghost use Rattle.ifmap_replies.specs.Results.{reply_bytes, reply_element, result_element};

use crate::replies::Reply;
use crate::results::result_of;
use ifmap_elem::{Element, Many, Name, Outline, canonical_outline};
use ifmap_envelopes::{ENVELOPE_SPACE, IFMAP_SPACE};
use std::alloc::{AllocError as NoMemory, Global};

/// The canonical bytes of the whole envelope of a reply, as it is sent. The one error is want of
/// memory.
#[tactic(auto, unfolding(crate::specs::Results::reply_bytes))]
pub fn write_reply(alloc: Global, reply: &Reply) -> Result<Many<u8>, NoMemory>
    ensures { IfOk result (λ bytes. bytes ≡ reply_bytes reply.now) }
{
    let names = ReplyNames::new(alloc)?;
    let outline = outline_of(alloc, &names, reply)?;
    canonical_outline(alloc, &outline)
}

/// The whole envelope of a reply. The one error is want of memory.
pub fn element_of(alloc: Global, reply: &Reply) -> Result<Element, NoMemory>
    ensures { IfOk result (λ element. element ≡ reply_element reply.now) }
{
    let names = ReplyNames::new(alloc)?;
    let outline = outline_of(alloc, &names, reply)?;
    outline.element(alloc)
}

// The names of what stands around a result.
#[derive(Drop)]
pub(crate) struct ReplyNames {
    envelope: Name,
    body: Name,
    response: Name,
}

impl ReplyNames {
    fn new(alloc: Global) -> Result<ReplyNames, NoMemory>
        ensures { IfOk result (λ names. names ≡ reply_names) }
    {
        Ok(ReplyNames {
            envelope: Name::new(alloc, ENVELOPE_SPACE, "Envelope")?,
            body: Name::new(alloc, ENVELOPE_SPACE, "Body")?,
            response: Name::new(alloc, IFMAP_SPACE, "response")?,
        })
    }
}

fn outline_of<'a>(
    alloc: Global,
    names: &'a ReplyNames,
    reply: &'a Reply,
) -> Result<Outline<'a>, NoMemory>
    ensures { IfOk result (λ outline.
        outline_element outline ≡ wrap_element names.now (result_element reply.now)) }
{
    let result = result_of(alloc, reply)?;
    let response = wrap_outline(alloc, &names.response, result)?;
    let body = wrap_outline(alloc, &names.body, response)?;
    wrap_outline(alloc, &names.envelope, body)
}

// An element that holds one other and nothing else.
fn wrap_outline<'a>(
    alloc: Global,
    name: &'a Name,
    inner: Outline<'a>,
) -> Result<Outline<'a>, NoMemory>
    ensures { IfOk result (λ outline.
        outline_element outline ≡ element_around name.now (outline_element inner.entry)) }
{
    let pieces = vec![in alloc; inner.into_piece()]?;
    Ok(Outline::with_name(name, Vec::new(alloc), pieces))
}
