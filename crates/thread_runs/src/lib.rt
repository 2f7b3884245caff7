//! A whole run of a script by workers on threads: from an opened kernel to a kernel again.
#![tactic(auto)]

mod boards;
mod running;
mod workers;

pub use running::{Ran, run_on_threads};
pub use thread_workers::{OpenGate, StepGate};
