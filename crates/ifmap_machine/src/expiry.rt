//! When sessions are expired.

/// After how many seconds without an accepted request a session of a program is expired.
pub const SESSION_SECONDS: u32 = 180;
