//! Rows of requests: a body, and the request that it means as a client writes it, or why it means none.
//! A body that stands as a client writes it is answered `the same`.
use crate::escapes::{bytes_of, text_of};
use ifmap_elem::Copied;
use ifmap_requests::{Refusal, Request, read_request};
use ifmap_writing::write_request;
use std::alloc::{AllocError as NoMemory, Global};

/// The answer to a body.
pub fn answer_of(alloc: Global, asked: &str) -> Result<String, NoMemory> {
    let Some(body) = bytes_of(alloc, asked)? else {
        return String::from_str(alloc, "no bytes");
    };
    match read_request(alloc, body.as_slice()) {
        Ok(request) => show_request(alloc, body.as_slice(), &request),
        Err(Refusal::Unreadable) => String::from_str(alloc, "unreadable"),
        Err(Refusal::Named(code)) => String::from_str(alloc, code.name()),
        Err(Refusal::NoMemory) => Err(NoMemory),
    }
}

// The request as it is written, where its copy and what is read back are the same request.
fn show_request(alloc: Global, body: &[u8], request: &Request) -> Result<String, NoMemory> {
    let written = write_request(alloc, request)?;
    if !are_same(alloc, &request.copy(alloc)?, request)? {
        return String::from_str(alloc, "the copy differs");
    }
    let Some(again) = request_in(alloc, written.as_slice())? else {
        return String::from_str(alloc, "what is written is not read");
    };
    if !are_same(alloc, &again, request)? {
        return String::from_str(alloc, "what is written is read as another");
    }
    if written.as_slice() == body {
        return String::from_str(alloc, "the same");
    }
    text_of(alloc, written.as_slice())
}

// The request that a body means, where it means one.
fn request_in(alloc: Global, body: &[u8]) -> Result<Option<Request>, NoMemory> {
    match read_request(alloc, body) {
        Ok(request) => Ok(Some(request)),
        Err(Refusal::NoMemory) => Err(NoMemory),
        Err(_) => Ok(None),
    }
}

// Whether two requests are the same, by the words that tell requests apart and by what is written of them.
fn are_same(alloc: Global, one: &Request, other: &Request) -> Result<bool, NoMemory> {
    Ok(words_are_same(alloc, one, other)? && bytes_are_same(alloc, one, other)?)
}

fn words_are_same(alloc: Global, one: &Request, other: &Request) -> Result<bool, NoMemory> {
    let words = words_of(alloc, one)?;
    let other_words = words_of(alloc, other)?;
    Ok(words == other_words)
}

fn words_of(alloc: Global, request: &Request) -> Result<String, NoMemory> {
    format!(in alloc; "{request:?}")
}

fn bytes_are_same(alloc: Global, one: &Request, other: &Request) -> Result<bool, NoMemory> {
    let bytes = write_request(alloc, one)?;
    let other_bytes = write_request(alloc, other)?;
    Ok(bytes.as_slice() == other_bytes.as_slice())
}

/// How many bytes are written of the request that a body means.
pub fn length_of(alloc: Global, asked: &str) -> Result<String, NoMemory> {
    match bytes_of(alloc, asked)? {
        Some(body) => length_of_body(alloc, body.as_slice()),
        None => String::from_str(alloc, "no bytes"),
    }
}

fn length_of_body(alloc: Global, body: &[u8]) -> Result<String, NoMemory> {
    match request_in(alloc, body)? {
        Some(request) => length_of_written(alloc, &request),
        None => String::from_str(alloc, "no request"),
    }
}

fn length_of_written(alloc: Global, request: &Request) -> Result<String, NoMemory> {
    let length = write_request(alloc, request)?.as_slice().len();
    format!(in alloc; "{length}")
}
