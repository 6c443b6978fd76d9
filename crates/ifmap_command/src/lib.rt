//! The words of `mapd`: what they ask for.
#![tactic(auto)]

mod commands;
pub mod forms;
pub mod laws;

pub use forms::{Form, form_of};
pub use laws::words_ask_for_one_form;
