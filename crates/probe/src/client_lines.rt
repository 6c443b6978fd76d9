//! Rows of the lines of a client's script: the form that each has.
use crate::escapes::{bytes_of, text_of};
use ifmap_client::{Line, line_of};
use ifmap_requests::Request;
use std::alloc::{AllocError as NoMemory, Global};

/// The answer to a line.
pub fn answer_of(alloc: Global, asked: &str) -> Result<String, NoMemory> {
    let Some(line) = bytes_of(alloc, asked)? else {
        return String::from_str(alloc, "no bytes");
    };
    match line_of(alloc, line.as_slice())? {
        Some(Line::Blank) => String::from_str(alloc, "blank"),
        Some(Line::Request(request)) => String::from_str(alloc, request_name(&request)),
        Some(Line::Set(name)) => set_text(alloc, name.as_bytes()),
        None => String::from_str(alloc, "no form"),
    }
}

fn request_name(request: &Request) -> &'static str {
    match request {
        Request::NewSession { .. } => "newSession",
        Request::RenewSession { .. } => "renewSession",
        Request::EndSession { .. } => "endSession",
        Request::Publish { .. } => "publish",
        Request::Search { .. } => "search",
        Request::Subscribe { .. } => "subscribe",
        Request::Poll { .. } => "poll",
        Request::PurgePublisher { .. } => "purgePublisher",
    }
}

// That a set is asked for, with its name in double quotes.
fn set_text(alloc: Global, name: &[u8]) -> Result<String, NoMemory> {
    let name = text_of(alloc, name)?;
    format!(in alloc; "set \"{name}\"")
}
