//! What a poll is told, as it stands in a `pollResult`.
use crate::escapes::bytes_of;
use ifmap_elem::Many;
use ifmap_replies::{Reply, ReplyError, read_reply};
use ifmap_search::PollItem;
use std::alloc::{AllocError as NoMemory, Global};

const FRONT: &[u8] =
    b"<e:Envelope xmlns:e='http://www.w3.org/2003/05/soap-envelope'><e:Body><i:response xmlns:i='http://www.trustedcomputinggroup.org/2010/IFMAP/2'><pollResult>";

const BACK: &[u8] = b"</pollResult></i:response></e:Body></e:Envelope>";

/// What these elements, one after another, tell; none where they tell nothing.
pub fn items_of(alloc: Global, written: &str) -> Result<Option<Many<PollItem>>, NoMemory> {
    let Some(told) = bytes_of(alloc, written)? else {
        return Ok(None);
    };
    let mut body = Vec::new(alloc);
    body.extend_from_slice(FRONT)?;
    body.extend_from_slice(told.as_slice())?;
    body.extend_from_slice(BACK)?;
    match read_reply(alloc, body.as_slice()) {
        Ok(Reply::Polled(items)) => Ok(Some(items)),
        Ok(_) | Err(ReplyError::NotAReply) => Ok(None),
        Err(ReplyError::NoMemory) => Err(NoMemory),
    }
}
