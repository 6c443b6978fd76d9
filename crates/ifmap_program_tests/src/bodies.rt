//! Requests by what stands in their bodies, and who asks them.
ghost use Rattle.std.specs.Prelude.{IfOk};
ghost use Rattle.ifmap_requests.specs.Fit.{IsFitRequest};

use ifmap_elem::Text;
use ifmap_meta::ClientName;
use ifmap_requests::laws::bodies_mean_fit_requests;
use ifmap_requests::{Request, read_request};
use std::alloc::{AllocError as NoMemory, Global};

const OPEN: &str =
    "<e:Envelope xmlns:e='http://www.w3.org/2003/05/soap-envelope' xmlns:i='http://www.trustedcomputinggroup.org/2010/IFMAP/2' xmlns:m='http://www.trustedcomputinggroup.org/2010/IFMAP-METADATA/2'><e:Body>";

const CLOSE: &str = "</e:Body></e:Envelope>";

/// The request that stands in a body.
pub fn request_of(alloc: Global, inner: &str) -> Result<Request, NoMemory>
    ensures { IfOk result IsFitRequest }
{
    bodies_mean_fit_requests();
    let body = format!(in alloc; "{OPEN}{inner}{CLOSE}")?;
    match read_request(alloc, body.as_bytes()) {
        Ok(request) => Ok(request),
        Err(_) => Err(NoMemory),
    }
}

/// The name of a client.
pub fn client_of(alloc: Global, name: &str) -> Result<ClientName, NoMemory> {
    match ClientName::new(Text(String::from_str(alloc, name)?)) {
        Some(client) => Ok(client),
        None => Err(NoMemory),
    }
}
