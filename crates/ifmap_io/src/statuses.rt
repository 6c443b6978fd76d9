//! The exit statuses of the programs, which tell the outside how a run ended.

/// The input was read to its end, and all of it was done; or no connection is left to serve.
pub const DONE: u8 = 0;
/// The words after the program's name ask for nothing that it does.
pub const USAGE: u8 = 2;
/// A frame or a line of the input is at fault.
pub const SCRIPT_FAULT: u8 = 3;
/// A read of the input failed.
pub const READ_FAULT: u8 = 4;
/// A write of the output failed.
pub const WRITE_FAULT: u8 = 5;
/// Want of memory.
pub const NO_MEMORY: u8 = 6;
/// A listener or a connection could not be had, or failed.
pub const LINK_FAULT: u8 = 7;
/// A connection ended before an answer was whole.
pub const LINK_ENDED: u8 = 8;
/// An answer is no reply.
pub const BAD_REPLY: u8 = 9;
