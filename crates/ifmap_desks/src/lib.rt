//! The desks of the running server: the core as a machine of a hall, a desk over one book, and a desk
//! over a pass of a hall.
#![tactic(auto)]

mod answers;
mod book_desk;
mod books;
pub mod events;
mod laws;
pub mod machine;
mod pass_desk;
mod passes;

pub use book_desk::BookDesk;
pub use events::FitEvent;
pub use ifmap_core::Core;
pub use ifmap_dialogue::desks::AFTER_ANSWER;
pub use ifmap_dialogue::{Desk, Gate, SESSION_SECONDS, serve_connection};
pub use laws::{
    answers_fit_events, clients_agree_in_every_log, holding_is_exact, silent_passes_recall,
};
pub use machine::CoreMachine;
pub use pass_desk::PassDesk;
