//! Traces checked: whether the lines of a trace are those of a legal history.
#![tactic(auto)]

mod checks;
mod faults;
mod lines;
mod naming;
mod reading;
mod words;

pub use checks::check;
pub use faults::TraceFault;
