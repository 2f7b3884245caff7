//! A large valid script for each number, drawn from a small random number generator: the drill.
#![tactic(auto)]

mod draws;
mod drill;
mod programs;
mod tables;

pub use drill::drill_script;
