//! Posts, and the answers that are due.
use std::alloc::{AllocError as NoMemory, Global};

const ENVELOPE: &str =
    "<n1:Envelope xmlns:n1=\"http://www.w3.org/2003/05/soap-envelope\" xmlns:n2=\"http://www.trustedcomputinggroup.org/2010/IFMAP/2\"";

const METADATA: &str = " xmlns:n3=\"http://www.trustedcomputinggroup.org/2010/IFMAP-METADATA/2\"";

// The post of a client with this request.
fn post_of(alloc: Global, client: &str, request: &str) -> Result<String, NoMemory> {
    let mut body = String::from_str(alloc, ENVELOPE)?;
    for part in [METADATA, "><n1:Body>", request, "</n1:Body></n1:Envelope>"] {
        body.push_str(part)?;
    }
    let length = body.len();
    format!(in alloc;
        "POST /ifmap HTTP/1.1\r\nifmap-client: {client}\r\ncontent-length: {length}\r\n\r\n{body}"
    )
}

/// The posts of a client with these requests.
pub fn posts_of(alloc: Global, client: &str, requests: &[&str]) -> Result<String, NoMemory> {
    let mut posts = String::new(alloc);
    for request in requests {
        posts.push_str(&post_of(alloc, client, request)?)?;
    }
    Ok(posts)
}

// The body of the answer with this result. The prefix `n3` is declared where the result uses it.
fn reply_body(alloc: Global, told: &str) -> Result<String, NoMemory> {
    let metadata = if told.contains("<n3:") { METADATA } else { "" };
    let mut body = String::from_str(alloc, ENVELOPE)?;
    for part in [
        metadata,
        "><n1:Body><n2:response>",
        told,
        "</n2:response></n1:Body></n1:Envelope>",
    ] {
        body.push_str(part)?;
    }
    Ok(body)
}

/// The answers with these results.
pub fn answers_of(alloc: Global, results: &[&str]) -> Result<String, NoMemory> {
    let mut answers = String::new(alloc);
    for told in results {
        let body = reply_body(alloc, told)?;
        let length = body.len();
        answers.push_str("HTTP/1.1 200 OK\r\ncontent-type: application/soap+xml\r\n")?;
        answers.push_str(&format!(in alloc; "content-length: {length}\r\n\r\n")?)?;
        answers.push_str(&body)?;
    }
    Ok(answers)
}
