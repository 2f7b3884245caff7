//! The whole system behind one call: an image is made, run, shown or reported, or a trace is checked against it, and lines go out.
#![tactic(auto)]

mod commands;
mod counted;
mod serving;
mod top;

pub use command_workers::{OpenGate, StepGate};
pub use counted::hopper_counted;
pub use serving::{has_workers, serve};
pub use top::hopper;
