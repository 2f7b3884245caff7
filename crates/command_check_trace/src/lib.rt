//! The command `check-trace`: a script and a trace, read from a source, and whether the trace is that of a legal history of the script
//! from the state that an image means.
#![tactic(auto)]

mod checking;
mod judging;
mod parting;
mod putting;
mod reading;

pub use checking::check_trace;
