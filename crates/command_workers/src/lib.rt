//! The command `run --workers N`: a script's run by workers on threads, from the state that an image means, and what is put of it.
#![tactic(auto)]

mod playing;
mod running;
mod watching;

pub use running::run_on_workers;
pub use thread_runs::{OpenGate, StepGate};
