//! Requests through the bytes of their bodies.
ghost use Rattle.std.specs.Prelude.{◌≡◌, IfOk, length};
ghost use Rattle.ifmap_requests.specs.Fit.{IsFitRequest};
ghost use Rattle.ifmap_writing.specs.Bounds.{IsBounded};
ghost use Rattle.ifmap_writing.specs.RequestElements.{request_bytes};

use ifmap_requests::{Request, read_request};
use ifmap_writing::laws::requests_are_read_back;
use ifmap_writing::write_request;
use std::alloc::{AllocError as NoMemory, Global};

/// A request as it came, and the length of its body in bytes.
#[derive(Drop)]
pub struct Received {
    pub request: Request,
    pub bytes: u32,
}

/// The request that a server reads in the body that a client writes of a request, which is that
/// request. Want of memory is also told of a body of 2^32 bytes or more.
pub fn send_through(alloc: Global, request: &Request) -> Result<Received, NoMemory>
    requires fit { IsFitRequest request.now }
    requires bounded { IsBounded request.now }
    ensures { IfOk result (λ received. received ≡ record {
      request = request.now;
      bytes = length (request_bytes request.now);
    }) }
{
    requests_are_read_back();
    let body = write_request(alloc, request)?;
    let Ok(bytes) = u32::try_from(body.len()) else {
        return Err(NoMemory);
    };
    match read_request(alloc, body.as_slice()) {
        Ok(request) => Ok(Received { request, bytes }),
        Err(_) => Err(NoMemory),
    }
}
