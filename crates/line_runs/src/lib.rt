//! The lines that a run prints: a locus's name and a value for each value that it printed.
#![tactic(auto)]

mod printing;
mod tracing;

pub use printing::put_output;
pub use tracing::put_traced;
