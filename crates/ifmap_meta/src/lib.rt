//! Metadata: the names of clients, elements that are to be published, and elements as they are stored,
//! with who published them, when, and for how long; what their keys compare.
#![tactic(auto)]

pub mod arranging;
pub mod clients;
pub mod errors;
mod key_words;
pub mod keys;
pub mod laws;
pub mod metadata;
pub mod shared_elements;
pub mod stored;

pub use arranging::arrange;
pub use clients::ClientName;
pub use errors::MetaError;
pub use keys::same_type;
pub use metadata::{Cardinality, Metadata, cardinality_of, is_single};
pub use shared_elements::SharedElement;
pub use stored::{Life, Stored, content, content_bytes};
