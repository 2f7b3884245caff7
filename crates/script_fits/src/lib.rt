//! What a script asks of an atlas: whether its new names can be born there, and whose table is born next.
#![tactic(auto)]

mod fitting;
mod laws;
mod names;
mod tables;

pub use fitting::against;
pub use laws::births_keep_progress;
pub use tables::{NextTable, Progress, next_table};
