//! How far a script is read.

/// How many bytes of a script may be frames, or lines without the newline of the last one.
pub const LONGEST_SCRIPT: u64 = 1 << 32;
