//! Tests of the whole system over a disk, a source and a sink in memory: a file for each theme.
#![tactic(auto)]

mod calls;
mod leavings;
pub mod scripts;
mod tracing;

pub use calls::{
    FORMAT_CALLS, copy_of, disk_of, formatted, formatted_with, put, put_failing, put_on_threads,
    run, shown, small,
};
pub use hopper_clients::{OpenGate, StepGate, run_on_threads_and_stop, trace_on_threads_and_check};
pub use leavings::{left_by, shows_one_of, wrong_stop};
pub use tracing::checked;

#[cfg(test)]
mod edge_tests;
#[cfg(test)]
mod foreign_tests;
#[cfg(test)]
mod hostile;
#[cfg(test)]
mod image_tests;
#[cfg(test)]
mod line_tests;
#[cfg(test)]
mod manager_tests;
#[cfg(test)]
mod refusal_tests;
#[cfg(test)]
mod run_tests;
#[cfg(test)]
mod stop_tests;
#[cfg(test)]
mod stopped_client_tests;
#[cfg(test)]
mod traced_client_tests;
#[cfg(test)]
mod traces;
