//! The messages that are written.
ghost use Rattle.std.specs.Prelude.{◌≡◌, ◌++◌, IfOk, IsTrue, OnOk};
ghost use Rattle.ifmap_heads.specs.Messages.{answer_bytes, close_field, is_answer_status, length_field, phrase, post_bytes, sent_body, status_field, status_line};

use http::StatusCode;
use itoa::Buffer;
use std::alloc::{AllocError as NoMemory, Global};

// What the head of a message takes beside its host and its client.
const HEAD_ROOM: usize = 256;

/// An answer, its head and its body, in one piece. The statuses are 200, 400, 403, 405, 411, 413, 503
/// and 507; a body comes with 200 alone.
pub fn answer_message(
    alloc: Global,
    status: StatusCode,
    body: &[u8],
    close: bool,
) -> Result<Vec<u8>, NoMemory>
    requires { IsTrue (is_answer_status status) }
    ensures { IfOk result (λ message. message.items ≡ answer_bytes status body.now close) }
{
    let sent = sent_body(status, body);
    let mut message = Vec::with_capacity(alloc, HEAD_ROOM.saturating_add(sent.len()))?;
    write_status_line(status, &mut message)?;
    message.extend_from_slice(status_field(status))?;
    write_length(sent, &mut message)?;
    message.extend_from_slice(close_field(status, close))?;
    message.extend_from_slice(b"\r\n")?;
    message.extend_from_slice(sent)?;
    Ok(message)
}

/// A post, its head and its body, in one piece.
pub fn post_message(
    alloc: Global,
    host: &[u8],
    client: &[u8],
    body: &[u8],
) -> Result<Vec<u8>, NoMemory>
    ensures { IfOk result (λ message. message.items ≡ post_bytes host.now client.now body.now) }
{
    let names = host.len().saturating_add(client.len());
    let room = HEAD_ROOM.saturating_add(names).saturating_add(body.len());
    let mut message = Vec::with_capacity(alloc, room)?;
    message.extend_from_slice(b"POST /ifmap HTTP/1.1\r\nhost: ")?;
    message.extend_from_slice(host)?;
    message.extend_from_slice(b"\r\n")?;
    message.extend_from_slice(b"ifmap-client: ")?;
    message.extend_from_slice(client)?;
    message.extend_from_slice(b"\r\n")?;
    message.extend_from_slice(b"content-type: application/soap+xml\r\n")?;
    write_length(body, &mut message)?;
    message.extend_from_slice(b"\r\n")?;
    message.extend_from_slice(body)?;
    Ok(message)
}

// Appends the first line of an answer.
fn write_status_line(status: StatusCode, message: &mut Vec<u8>) -> Result<(), NoMemory>
    requires { IsTrue (is_answer_status status) }
    ensures { OnOk result (message.new.items ≡ message.old.items ++ status_line status) }
{
    message.extend_from_slice(b"HTTP/1.1 ")?;
    message.extend_from_slice(Buffer::new().format(status.as_u16()).as_bytes())?;
    message.extend_from_slice(b" ")?;
    message.extend_from_slice(phrase(status).as_bytes())?;
    message.extend_from_slice(b"\r\n")
}

// Appends the field that tells the length of a body.
fn write_length(body: &[u8], message: &mut Vec<u8>) -> Result<(), NoMemory>
    ensures { OnOk result (message.new.items ≡ message.old.items ++ length_field body.now) }
{
    message.extend_from_slice(b"content-length: ")?;
    message.extend_from_slice(Buffer::new().format(body.len()).as_bytes())?;
    message.extend_from_slice(b"\r\n")
}

// The body, which comes with the status 200 alone.
fn sent_body(status: StatusCode, body: &[u8]) -> &[u8]
    ensures { result.now ≡ sent_body status body.now }
{
    if status == StatusCode::OK { body } else { b"" }
}

// The phrase of each status.
fn phrase(status: StatusCode) -> &'static str
    requires { IsTrue (is_answer_status status) }
    ensures { result.now ≡ phrase status }
{
    status.canonical_reason().unwrap()
}

// The field before `content-length`.
fn status_field(status: StatusCode) -> &'static [u8]
    ensures { result.now ≡ status_field status }
{
    if status == StatusCode::OK {
        return b"content-type: application/soap+xml\r\n";
    }
    if status == StatusCode::METHOD_NOT_ALLOWED {
        return b"allow: POST\r\n";
    }
    b""
}

// The field of a connection that will be closed.
fn close_field(status: StatusCode, close: bool) -> &'static [u8]
    ensures { result.now ≡ close_field status close }
{
    if status != StatusCode::OK || close {
        b"connection: close\r\n"
    } else {
        b""
    }
}
