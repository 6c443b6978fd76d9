//! Rows of replies: a body, and the reply that it means as it is sent, or that it means none.
//! A body that stands as it is sent is answered `the same`.
use crate::escapes::{bytes_of, text_of};
use ifmap_elem::{Copied, Element, Many, canonical};
use ifmap_replies::{Reply, ReplyError, element_of, read_reply, reply_of, write_reply};
use std::alloc::{AllocError as NoMemory, Global};

/// The answer to a body.
pub fn answer_of(alloc: Global, asked: &str) -> Result<String, NoMemory> {
    let Some(body) = bytes_of(alloc, asked)? else {
        return String::from_str(alloc, "no bytes");
    };
    match read_reply(alloc, body.as_slice()) {
        Ok(reply) => show_reply(alloc, body.as_slice(), &reply),
        Err(ReplyError::NotAReply) => String::from_str(alloc, "no reply"),
        Err(ReplyError::NoMemory) => Err(NoMemory),
    }
}

// The reply as it is sent, where what is sent is written again alike, and so is the element of a copy.
fn show_reply(alloc: Global, body: &[u8], reply: &Reply) -> Result<String, NoMemory> {
    let written = write_reply(alloc, reply)?;
    if !is(&written_again(alloc, written.as_slice())?, &written) {
        return String::from_str(alloc, "what is written is read as another");
    }
    if !is(&written_by_elements(alloc, reply)?, &written) {
        return String::from_str(alloc, "the element of a copy differs");
    }
    if written.as_slice() == body {
        return String::from_str(alloc, "the same");
    }
    text_of(alloc, written.as_slice())
}

fn is(bytes: &Option<Many<u8>>, wanted: &Many<u8>) -> bool {
    match bytes {
        Some(bytes) => bytes.as_slice() == wanted.as_slice(),
        None => false,
    }
}

// The bytes that are written for the reply that a body means, where it means one.
fn written_again(alloc: Global, body: &[u8]) -> Result<Option<Many<u8>>, NoMemory> {
    match read_reply(alloc, body) {
        Ok(reply) => Ok(Some(write_reply(alloc, &reply)?)),
        Err(ReplyError::NotAReply) => Ok(None),
        Err(ReplyError::NoMemory) => Err(NoMemory),
    }
}

// The bytes of the element of a copy of a reply, after that element was read once more.
fn written_by_elements(alloc: Global, reply: &Reply) -> Result<Option<Many<u8>>, NoMemory> {
    let element = element_of_copy(alloc, reply)?;
    match reply_of(alloc, &element) {
        Ok(again) => Ok(Some(bytes_by_element(alloc, &again)?)),
        Err(ReplyError::NotAReply) => Ok(None),
        Err(ReplyError::NoMemory) => Err(NoMemory),
    }
}

fn element_of_copy(alloc: Global, reply: &Reply) -> Result<Element, NoMemory> {
    let copy = reply.copy(alloc)?;
    element_of(alloc, &copy)
}

fn bytes_by_element(alloc: Global, reply: &Reply) -> Result<Many<u8>, NoMemory> {
    let element = element_of(alloc, reply)?;
    canonical(alloc, &element)
}

/// How many bytes are written for the reply that a body means.
pub fn length_of(alloc: Global, asked: &str) -> Result<String, NoMemory> {
    let Some(body) = bytes_of(alloc, asked)? else {
        return String::from_str(alloc, "no bytes");
    };
    let Some(written) = written_again(alloc, body.as_slice())? else {
        return String::from_str(alloc, "no reply");
    };
    let length = written.as_slice().len();
    format!(in alloc; "{length}")
}
