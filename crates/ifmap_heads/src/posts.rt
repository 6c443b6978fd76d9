//! The heads of posts.
ghost use Rattle.std.specs.Prelude.{◌≡◌, ◌<◌, ◌≤◌, ◌||◌, IfOk, Some, None, codes, length, map, not, if◌then◌else◌};
ghost use Rattle.std.specs.List.{list_all};
ghost use Rattle.std.specs.Option.{MatchOption};
ghost use Rattle.std.specs.Str.{bytes_eq};
ghost use Rattle.httparse.specs.Borrowed.{header_parts};
ghost use Rattle.ifmap_heads.specs.Fields.{has_field, values};
ghost use Rattle.ifmap_heads.specs.Limits.{longest_head};
ghost use Rattle.ifmap_heads.specs.Posts.{is_client_name, judge_parts, lacks_length, only_client};
ghost use Rattle.ifmap_heads.specs.Starts.{StartsPost, judgement_of};

use crate::beginnings::ends_in_target;
use crate::fields::{common_length, has_field, has_only_value, lists, next_value};
use crate::{LONGEST_HEAD, MOST_FIELDS};
use http::{Method, StatusCode};
use http_header::{CONNECTION, CONTENT_ENCODING, CONTENT_LENGTH, TRANSFER_ENCODING};
use httparse::{EMPTY_HEADER, Header, Request, Status};
use ifmap_elem::Text;
use ifmap_meta::ClientName;
use std::alloc::{AllocError as NoMemory, Global};

// The field that names the client.
const IFMAP_CLIENT: &[u8] = b"ifmap-client";

// The most bytes of a post's body.
const LONGEST_POST: u64 = 10_000_000;

/// What the head of a post says that is taken.
#[derive(Debug, Drop)]
pub struct PostTerms {
    /// Who posts.
    pub client: ClientName,
    /// The length of the body, at most 10,000,000 bytes.
    pub size: usize,
    /// The connection is to be closed after the answer.
    pub close: bool,
}

/// What the bytes of a post so far begin.
#[derive(Debug, Drop)]
pub enum PostStart {
    /// No head is whole yet.
    Unfinished,
    /// The post has this status, whatever comes.
    Refused(u16),
    /// A head with this length, and its terms.
    Taken(usize, PostTerms),
}

// What a head says.
#[derive(Debug, Drop)]
pub(crate) enum Judged {
    Refused(StatusCode),
    Taken(PostTerms),
}

/// What the bytes of a post so far begin. They are parsed once, from their start.
pub fn read_post_head(alloc: Global, bytes: &[u8]) -> Result<PostStart, NoMemory>
    ensures { IfOk result (StartsPost bytes.now) }
{
    let mut room = [EMPTY_HEADER; MOST_FIELDS];
    let mut request = Request::new(&mut room);
    match request.parse(bytes) {
        Ok(Status::Complete(size)) => {
            if size > LONGEST_HEAD || request.headers.len() > MOST_FIELDS {
                return Ok(refuse(StatusCode::BAD_REQUEST));
            }
            let method = request.method.unwrap().as_bytes();
            let minor = request.version.unwrap();
            match judge_parts(alloc, method, minor, request.headers)? {
                Judged::Refused(status) => Ok(refuse(status)),
                Judged::Taken(terms) => Ok(PostStart::Taken(size, terms)),
            }
        }
        Ok(Status::Partial) => Ok(unfinished_post(bytes)),
        Err(_) => {
            if ends_in_target(bytes) {
                Ok(unfinished_post(bytes))
            } else {
                Ok(refuse(StatusCode::BAD_REQUEST))
            }
        }
    }
}

// A post is refused with that status.
fn refuse(status: StatusCode) -> PostStart
    ensures { result ≡ PostStart.Refused status }
{
    PostStart::Refused(status.as_u16())
}

// No head is whole: one may come while the limit is not passed.
fn unfinished_post(bytes: &[u8]) -> PostStart
    ensures long { longest_head < length bytes.now → result ≡ PostStart.Refused 400 }
    ensures short { length bytes.now ≤ longest_head → result ≡ PostStart.Unfinished }
{
    if bytes.len() > LONGEST_HEAD {
        refuse(StatusCode::BAD_REQUEST)
    } else {
        PostStart::Unfinished
    }
}

// What a head says with this method, minor version and these fields.
fn judge_parts(
    alloc: Global,
    method: &[u8],
    minor: u8,
    headers: &[Header<'_>],
) -> Result<Judged, NoMemory>
    ensures { IfOk result
        (λ j. judgement_of j ≡ judge_parts method.now minor (map header_parts headers.now)) }
{
    if method != Method::POST.as_str().as_bytes() {
        return Ok(Judged::Refused(StatusCode::METHOD_NOT_ALLOWED));
    }
    if lacks_length(headers) {
        return Ok(Judged::Refused(StatusCode::LENGTH_REQUIRED));
    }
    let Some(size) = common_length(CONTENT_LENGTH.as_bytes(), headers) else {
        return Ok(Judged::Refused(StatusCode::BAD_REQUEST));
    };
    if size > LONGEST_POST {
        return Ok(Judged::Refused(StatusCode::PAYLOAD_TOO_LARGE));
    }
    let Some(client) = only_client(alloc, headers)? else {
        return Ok(Judged::Refused(StatusCode::FORBIDDEN));
    };
    Ok(Judged::Taken(PostTerms {
        client,
        size: size as usize,
        close: minor == 0 || lists(CONNECTION.as_bytes(), b"close", headers),
    }))
}

// No length can be told: the body is encoded, or has no length.
fn lacks_length(headers: &[Header<'_>]) -> bool
    ensures { result ≡ lacks_length (map header_parts headers.now) }
{
    is_encoded(headers) || !has_length(headers)
}

// The body comes in another form than it is.
fn is_encoded(headers: &[Header<'_>]) -> bool
    ensures { result ≡ (has_field (codes "transfer-encoding") (map header_parts headers.now)
        || not (list_all (λ v. bytes_eq v (codes "identity"))
        (values (codes "content-encoding") (map header_parts headers.now)))) }
{
    has_field(TRANSFER_ENCODING.as_bytes(), headers)
        || !has_only_value(CONTENT_ENCODING.as_bytes(), b"identity", headers)
}

// There is a `content-length`.
fn has_length(headers: &[Header<'_>]) -> bool
    ensures { result ≡ has_field (codes "content-length") (map header_parts headers.now) }
{
    has_field(CONTENT_LENGTH.as_bytes(), headers)
}

// The client, where it is named once and by a name.
fn only_client(alloc: Global, headers: &[Header<'_>]) -> Result<Option<ClientName>, NoMemory>
    ensures { IfOk result
        (λ client. client
        ≡ only_client (values (codes "ifmap-client") (map header_parts headers.now))) }
{
    let Some(named) = next_value(IFMAP_CLIENT, headers) else {
        return Ok(None);
    };
    if has_field(IFMAP_CLIENT, named.rest) {
        return Ok(None);
    }
    client_of(alloc, named.value)
}

// The value as a client's name, where it is one.
fn client_of(alloc: Global, value: &[u8]) -> Result<Option<ClientName>, NoMemory>
    ensures { IfOk result
        (λ client. client ≡ (if is_client_name value.now then Some value.now else None)) }
{
    match std::str::from_utf8(value) {
        Ok(text) => Ok(ClientName::new(Text(String::from_str(alloc, text)?))),
        Err(_) => Ok(None),
    }
}
