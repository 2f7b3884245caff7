//! What the commands share: how a call ends, the line of its fault, and what it saw and gave.
#![tactic(auto)]

mod ends;
mod faults;
mod statuses;

pub use ends::{empty_outcome, end_with};
pub use faults::{FAULT_LINE, Fault, put_fault, two_numbers};
pub use statuses::{Outcome, Status, status_of};
