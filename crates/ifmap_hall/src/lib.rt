//! One history for many callers: a machine, the book of what it was asked, and a hall in which
//! passes ask the one book in turn. It is generic over the machine.
#![tactic(auto)]

mod book;
mod calls;
mod carrying;
mod hall;
mod hall_asks;
mod machine;
mod rule;
mod steps;
mod view;

pub use book::{Asked, Book};
pub use carrying::{carries_itself, carries_through, the_book_lies_in_order};
pub use hall::{Hall, Pass};
pub use machine::Machine;
pub use view::{HallHistory, HallView, Terms};
