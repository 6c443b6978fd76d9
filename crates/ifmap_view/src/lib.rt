//! What a search sees of a graph: attachments by item, the numbers of identifiers, and the links of each
//! number. A graph and a draft of one both show it; whoever searches is written once, over `View`.
#![tactic(auto)]

pub mod attachments;
pub mod rows;
pub mod views;

pub use attachments::Attachment;
pub use rows::{Row, share_rows};
pub use views::{LinkSeen, View};
