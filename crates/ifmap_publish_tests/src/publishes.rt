//! Publishes as texts.
ghost use Rattle.std.specs.Prelude.{IfSome};
ghost use Rattle.std.specs.List.{AllByRecursion};
ghost use Rattle.ifmap_requests.specs.Fit.{IsFitOp, IsFitRequest};

use ifmap_elem::{Many, Text};
use ifmap_meta::ClientName;
use ifmap_requests::laws::bodies_mean_fit_requests;
use ifmap_requests::{PublishOp, Request, read_request};
use std::alloc::{AllocError as NoMemory, Global};

/// The client of this name.
pub fn client_of(alloc: Global, name: &str) -> Result<ClientName, NoMemory> {
    ClientName::new(Text::from_str(alloc, name)?).ok_or(NoMemory)
}

// A publish with these operations, in an envelope that declares the prefix `u`.
fn body_of(alloc: Global, ops: &str) -> Result<String, NoMemory> {
    let mut body = String::from_str(
        alloc,
        "<Envelope xmlns='http://www.w3.org/2003/05/soap-envelope'><Body><i:publish xmlns='' xmlns:i='http://www.trustedcomputinggroup.org/2010/IFMAP/2' xmlns:u='u' session-id='s'>",
    )?;
    body.push_str(ops)?;
    body.push_str("</i:publish></Body></Envelope>")?;
    Ok(body)
}

fn request_in(alloc: Global, body: &[u8]) -> Option<Request>
    ensures { IfSome result IsFitRequest }
{
    bodies_mean_fit_requests();
    match read_request(alloc, body) {
        Ok(request) => Some(request),
        Err(_) => None,
    }
}

fn ops_of(request: Request) -> Option<Many<PublishOp>>
    requires { IsFitRequest request }
    ensures { IfSome result (AllByRecursion IsFitOp) }
{
    match request {
        Request::Publish { ops, .. } => Some(ops),
        _ => None,
    }
}

/// The operations that a text spells, in which the prefix `u` stands for the namespace `u`.
pub fn ops_in(alloc: Global, ops: &str) -> Option<Many<PublishOp>>
    ensures { IfSome result (AllByRecursion IsFitOp) }
{
    let body = body_of(alloc, ops).ok()?;
    ops_of(request_in(alloc, body.as_bytes())?)
}
