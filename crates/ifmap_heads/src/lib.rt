//! The heads of HTTP/1.0 and HTTP/1.1 messages: which bytes are a post or an answer, what a head says,
//! and the messages that are written.
#![tactic(auto)]

mod answers;
mod beginnings;
mod fields;
pub mod laws;
mod messages;
mod posts;

pub use answers::{AnswerStart, read_answer_head};
pub use beginnings::passes_lines;
pub use messages::{answer_message, post_message};
pub use posts::{PostStart, PostTerms, read_post_head};

/// The most bytes of a head.
pub const LONGEST_HEAD: usize = 16_384;
/// The most fields of a head.
pub const MOST_FIELDS: usize = 64;
