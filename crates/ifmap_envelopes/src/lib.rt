//! Envelopes of messages (SOAP 1.2, part 1, section 5): an element whose body holds one other,
//! after a header or none.
#![tactic(auto)]

pub mod envelopes;
pub mod laws;
pub mod spaces;

pub use envelopes::{Inner, open_envelope};
pub use spaces::{ENVELOPE_SPACE, IFMAP_SPACE};
