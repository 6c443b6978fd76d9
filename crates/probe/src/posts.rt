//! Rows of posts and answers: bytes that a link has left, and what a wire over it gets of them; and what
//! it writes.
ghost use Rattle.std.specs.Prelude.{IfSome, IsFalse, IsTrue};
ghost use Rattle.ifmap_http.specs.ifmap_heads.Messages.{is_answer_status};

use crate::drips::Drip;
use crate::escapes::{bytes_of, text_of};
use ifmap_elem::Text;
use ifmap_http::{Answered, Got, Post, Sent, Wire};
use ifmap_io::{Link, MemoryLink};
use ifmap_meta::ClientName;
use std::alloc::{AllocError as NoMemory, Global};

// How many posts are read of a link at most.
const MOST_POSTS: u32 = 10;

/// The call of a link after a write and a flush.
pub const AFTER_FLUSH: u64 = 2;

/// What is read of a link.
#[derive(Clone, Copy, Debug, PartialEq, Eq)]
pub enum Reading {
    /// One post.
    Post,
    /// Posts until the wire is spent.
    Posts,
    /// One answer.
    Answer,
}

/// What is got of the bytes, where it is the same at once and a byte at a time, and reads no further
/// than it needs.
pub fn answer_of(alloc: Global, reading: Reading, asked: &str) -> Result<String, NoMemory> {
    match bytes_of(alloc, asked)? {
        Some(bytes) => get_each_way(alloc, reading, &bytes),
        None => String::from_str(alloc, "no bytes"),
    }
}

fn get_each_way(alloc: Global, reading: Reading, bytes: &[u8]) -> Result<String, NoMemory> {
    let at_once = get_at_once(alloc, reading, bytes, &[])?;
    let (dripped, taken) = get_dripped(alloc, reading, bytes, &[])?;
    if dripped.as_str() != at_once.as_str() {
        return format!(in alloc; "{at_once}, but a byte at a time {dripped}");
    }
    let end = bytes.len() as u64;
    let (open, _) = get_dripped(alloc, reading, bytes, &[end])?;
    if reading != Reading::Posts && open.as_str() != without_end(&at_once) {
        return format!(in alloc; "{at_once}, but over a link that goes on {open}");
    }
    with_rest(alloc, at_once, bytes.get(taken..).unwrap_or(&[]))
}

// What is to be got over a link that fails in place of its end, where this is got at its end.
fn without_end(got: &str) -> &str {
    match got {
        "Ended" | "Truncated" => "ReadFault",
        _ => got,
    }
}

// A post or a body leaves what comes after it.
fn with_rest(alloc: Global, got: String, rest: &[u8]) -> Result<String, NoMemory> {
    if rest.is_empty() || !(got.starts_with("Posted") || got.starts_with("Body")) {
        return Ok(got);
    }
    let rest = text_of(alloc, rest)?;
    format!(in alloc; "{got}, left {rest}")
}

fn link_of(alloc: Global, bytes: &[u8], fails: &[u64]) -> Result<MemoryLink, NoMemory> {
    let left = bytes.to_vec(alloc)?;
    let fails = fails.to_vec(alloc)?;
    Ok(MemoryLink::new(left, Vec::new(alloc), fails))
}

// What is got over a link that fails at these calls.
fn get_at_once(
    alloc: Global,
    reading: Reading,
    bytes: &[u8],
    fails: &[u64],
) -> Result<String, NoMemory> {
    let mut wire = Wire::new(alloc, link_of(alloc, bytes, fails)?);
    get(alloc, reading, &mut wire)
}

// The same over a link that reads a byte at a time, and how many it read.
fn get_dripped(
    alloc: Global,
    reading: Reading,
    bytes: &[u8],
    fails: &[u64],
) -> Result<(String, usize), NoMemory> {
    let link = link_of(alloc, bytes, fails)?;
    let mut wire = Wire::new(alloc, Drip { link, taken: 0 });
    let got = get(alloc, reading, &mut wire)?;
    Ok((got, wire.into_link().taken))
}

fn get<L: Link>(alloc: Global, reading: Reading, wire: &mut Wire<L>) -> Result<String, NoMemory> {
    match reading {
        Reading::Post => get_post(alloc, wire),
        Reading::Posts => get_posts(alloc, wire),
        Reading::Answer => get_answer(alloc, wire),
    }
}

fn get_posts<L: Link>(alloc: Global, wire: &mut Wire<L>) -> Result<String, NoMemory> {
    let mut all = String::new(alloc);
    for place in 0..MOST_POSTS {
        if wire.is_spent() {
            break;
        }
        if place > 0 {
            all.push_str("; ")?;
        }
        all.push_str(get_post(alloc, wire)?.as_str())?;
    }
    Ok(all)
}

fn get_post<L: Link>(alloc: Global, wire: &mut Wire<L>) -> Result<String, NoMemory> {
    if wire.is_spent() {
        return String::from_str(alloc, "spent");
    }
    match wire.read_post(alloc) {
        Got::Posted(post) => told_of_post(alloc, &post),
        Got::Ended => String::from_str(alloc, "Ended"),
        Got::Truncated => String::from_str(alloc, "Truncated"),
        Got::Status(status) => format!(in alloc; "Status {status}"),
        Got::ReadFault => String::from_str(alloc, "ReadFault"),
        Got::NoMemory => Err(NoMemory),
    }
}

fn told_of_post(alloc: Global, post: &Post) -> Result<String, NoMemory> {
    let client = post.client.text().as_str();
    let close = if post.close { "closes" } else { "stays" };
    let told = format!(in alloc; "Posted {client} {close}")?;
    with_body(alloc, told, post.body.0.as_slice())
}

fn with_body(alloc: Global, told: String, body: &[u8]) -> Result<String, NoMemory> {
    if body.is_empty() {
        return Ok(told);
    }
    let body = text_of(alloc, body)?;
    format!(in alloc; "{told} {body}")
}

fn get_answer<L: Link>(alloc: Global, wire: &mut Wire<L>) -> Result<String, NoMemory> {
    if wire.is_spent() {
        return String::from_str(alloc, "spent");
    }
    match wire.read_answer(alloc) {
        Answered::Body(body) => {
            with_body(alloc, String::from_str(alloc, "Body")?, body.0.as_slice())
        }
        Answered::Status(status) => format!(in alloc; "Status {status}"),
        Answered::Ended => String::from_str(alloc, "Ended"),
        Answered::NotHttp => String::from_str(alloc, "NotHttp"),
        Answered::ReadFault => String::from_str(alloc, "ReadFault"),
        Answered::NoMemory => Err(NoMemory),
    }
}

/// What is got of each shorter part of the bytes: where it changes, the size from which on it is so.
pub fn parts_of(alloc: Global, reading: Reading, asked: &str) -> Result<String, NoMemory> {
    let Some(bytes) = bytes_of(alloc, asked)? else {
        return String::from_str(alloc, "no bytes");
    };
    let mut all = String::new(alloc);
    let mut last = String::new(alloc);
    for size in 0..bytes.len() {
        let got = get_each_way(alloc, reading, bytes.get(..size).unwrap_or(&[]))?;
        if got.as_str() != last.as_str() {
            push_part(alloc, &mut all, size, &got)?;
            last = got;
        }
    }
    Ok(all)
}

fn push_part(alloc: Global, all: &mut String, size: usize, got: &str) -> Result<(), NoMemory> {
    if size > 0 {
        all.push_str("; ")?;
    }
    all.push_str(&format!(in alloc; "{size} {got}")?)
}

/// What comes of a row below a link whose call of that number fails.
pub fn failing_of(alloc: Global, asked: &str) -> Result<String, NoMemory> {
    let (number, rest) = asked.split_once(' ').unwrap_or((asked, ""));
    let (word, rest) = rest.split_once(' ').unwrap_or((rest, ""));
    let Ok(fail) = number.parse::<u64>() else {
        return String::from_str(alloc, "no number");
    };
    match word {
        "post" => get_failing(alloc, Reading::Post, rest, fail),
        "posts" => get_failing(alloc, Reading::Posts, rest, fail),
        "answer" => get_failing(alloc, Reading::Answer, rest, fail),
        "ask" => ask_of(alloc, rest, fail),
        "tell" => tell_of(alloc, rest, fail),
        _ => String::from_str(alloc, "no such layer"),
    }
}

fn get_failing(
    alloc: Global,
    reading: Reading,
    asked: &str,
    fail: u64,
) -> Result<String, NoMemory> {
    match bytes_of(alloc, asked)? {
        Some(bytes) => get_at_once(alloc, reading, &bytes, &[fail]),
        None => String::from_str(alloc, "no bytes"),
    }
}

/// What a wire sends as the post of the client `c1` to the host `h`, and what its link then holds.
pub fn ask_of(alloc: Global, asked: &str, fail: u64) -> Result<String, NoMemory> {
    let Some(body) = bytes_of(alloc, asked)? else {
        return String::from_str(alloc, "no bytes");
    };
    let Some(client) = ClientName::new(Text::from_str(alloc, "c1")?) else {
        return String::from_str(alloc, "no client");
    };
    let host = Text::from_str(alloc, "h")?;
    let mut wire = Wire::new(alloc, link_of(alloc, &[], &[fail])?);
    let sent = wire.send_post(alloc, &host, &client, &body);
    told_of_sent(alloc, sent, wire)
}

/// What a wire writes as an answer, `STATUS closes|stays BODY`, and what its link then holds.
pub fn tell_of(alloc: Global, asked: &str, fail: u64) -> Result<String, NoMemory> {
    let (status, rest) = asked.split_once(' ').unwrap_or((asked, ""));
    let (close, body) = rest.split_once(' ').unwrap_or((rest, ""));
    let (Some(status), Some(body)) = (status_of(status), bytes_of(alloc, body)?) else {
        return String::from_str(alloc, "no answer");
    };
    let mut wire = Wire::new(alloc, link_of(alloc, &[], &[fail])?);
    let sent = tell(alloc, &mut wire, status, &body, close == "closes");
    told_of_sent(alloc, sent, wire)
}

fn tell(alloc: Global, wire: &mut Wire<MemoryLink>, status: u16, body: &[u8], close: bool) -> Sent
    requires { IsTrue (is_answer_status status) }
{
    wire.write_answer(alloc, status, body, close)
}

fn status_of(status: &str) -> Option<u16>
    ensures { IfSome result (λ status. IsTrue (is_answer_status status)) }
{
    match status {
        "200" => Some(200),
        "405" => Some(405),
        "507" => Some(507),
        _ => None,
    }
}

fn told_of_sent(alloc: Global, sent: Sent, wire: Wire<MemoryLink>) -> Result<String, NoMemory> {
    let told = match sent {
        Sent::Done => "Done",
        Sent::WriteFault => "WriteFault",
        Sent::NoMemory => return Err(NoMemory),
    };
    let told = String::from_str(alloc, told)?;
    with_body(alloc, told, wire.into_link().held())
}
