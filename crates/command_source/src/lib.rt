//! A source, read to the script that it stands for.
#![tactic(auto)]

mod reading;

pub use reading::{fault_of_stop, read_source};
