//! The namespaces of messages.

/// The namespace of envelopes (SOAP 1.2, part 1, section 5).
pub const ENVELOPE_SPACE: &str = "http://www.w3.org/2003/05/soap-envelope";

/// The namespace of requests and of responses (IF-MAP binding for SOAP, version 2.2, section 3).
pub const IFMAP_SPACE: &str = "http://www.trustedcomputinggroup.org/2010/IFMAP/2";
