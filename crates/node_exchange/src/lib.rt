//! Two nodes over a network that loses, repeats and reorders: whatever happens, the second one keeps the first commits of the first one's run.
#![tactic(auto)]

mod exchanging;
mod lines;
mod losing;

pub use exchanging::{Happening, exchange};
pub use lines::{Lines, Sent};
pub use losing::take_over;
