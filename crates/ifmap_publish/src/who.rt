//! Whose attachments go.

use ifmap_elem::Many;
use ifmap_meta::ClientName;

/// Whose attachments go.
#[derive(Debug, Drop)]
pub enum Who {
    /// Those that last as long as a session of one of these serials.
    Sessions(Many<u64>),
    /// All that this client published.
    Publisher(ClientName),
}
