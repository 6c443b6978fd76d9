//! Requests in any spelling: the types, and the reading of elements and bodies, which answers the one
//! request that is meant, or the code of the first defect in the order of the document.
#![tactic(auto)]

mod asking;
pub mod errors;
pub mod laws;
mod metadata;
mod operations;
pub mod publish_ops;
pub mod reading;
pub mod requests;
mod searching;
mod subscribing;

pub use errors::Refusal;
pub use ifmap_envelopes::{ENVELOPE_SPACE, IFMAP_SPACE};
pub use ifmap_forms::{Filter, FormError, meets_optional};
pub use publish_ops::PublishOp;
pub use reading::{read_request, request_of};
pub use requests::{Request, SubscribeOp};
