//! Managers that a script brings as programs: one run of such a program, and the book of a script's managers, which asks the
//! outer managers for all that no program is for.
#![tactic(auto)]

mod book;
mod runs;

pub use book::{Book, book_over};
pub use runs::{MOST_ACTS, run_manager};
