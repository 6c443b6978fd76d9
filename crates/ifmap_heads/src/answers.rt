//! The heads of answers.
ghost use Rattle.std.specs.Prelude.{◌≡◌, map};
ghost use Rattle.httparse.specs.Borrowed.{header_parts};
ghost use Rattle.ifmap_heads.specs.Answers.{judge_status};
ghost use Rattle.ifmap_heads.specs.Starts.{StartsAnswer, verdict_of};

use crate::fields::{common_length, has_field};
use crate::{LONGEST_HEAD, MOST_FIELDS};
use http::StatusCode;
use http_header::{CONTENT_LENGTH, TRANSFER_ENCODING};
use httparse::{EMPTY_HEADER, Header, Response, Status};

// The most bytes of an answer's body.
const LONGEST_ANSWER: u64 = 110_000_000;

/// What the bytes of an answer so far begin.
#[derive(Clone, Copy, Debug, PartialEq, Eq)]
pub enum AnswerStart {
    /// No head is whole yet.
    Unfinished,
    /// They begin no head, or one that tells no length, whatever comes.
    NotHttp,
    /// A head with this length, and its status, which is not 200.
    Refused(usize, u16),
    /// A head with this length, and the length of the body, at most 110,000,000 bytes.
    Sized(usize, usize),
}

// What a head says.
#[derive(Clone, Copy, Debug)]
pub(crate) enum Verdict {
    Other(u16),
    Sized(usize),
    Unfit,
}

/// What the bytes of an answer so far begin. They are parsed once, from their start.
pub fn read_answer_head(bytes: &[u8]) -> AnswerStart
    ensures { StartsAnswer bytes.now result }
{
    let mut room = [EMPTY_HEADER; MOST_FIELDS];
    let mut response = Response::new(&mut room);
    match response.parse(bytes) {
        Ok(Status::Complete(size)) => {
            if size > LONGEST_HEAD || response.headers.len() > MOST_FIELDS {
                return AnswerStart::NotHttp;
            }
            let code = response.code.unwrap();
            match judge_status(code, response.headers) {
                Verdict::Other(status) => AnswerStart::Refused(size, status),
                Verdict::Sized(body) => AnswerStart::Sized(size, body),
                Verdict::Unfit => AnswerStart::NotHttp,
            }
        }
        Ok(Status::Partial) => {
            if bytes.len() > LONGEST_HEAD {
                AnswerStart::NotHttp
            } else {
                AnswerStart::Unfinished
            }
        }
        Err(_) => AnswerStart::NotHttp,
    }
}

// What a head says with this status and these fields.
fn judge_status(status: u16, headers: &[Header<'_>]) -> Verdict
    ensures { verdict_of result ≡ judge_status status (map header_parts headers.now) }
{
    if status != StatusCode::OK.as_u16() {
        return Verdict::Other(status);
    }
    if has_field(TRANSFER_ENCODING.as_bytes(), headers) {
        return Verdict::Unfit;
    }
    match common_length(CONTENT_LENGTH.as_bytes(), headers) {
        Some(size) if size <= LONGEST_ANSWER => Verdict::Sized(size as usize),
        _ => Verdict::Unfit,
    }
}
