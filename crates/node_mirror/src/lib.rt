//! A run of a kernel whose commits a standby follows: they are offered behind the births and behind each look, and rounds are made behind each step and
//! behind the run.
#![tactic(auto)]

mod following;
mod lines;
mod mirroring;
mod offering;
mod running;
mod stops;

pub use lines::Losing;
pub use running::{Mirrored, run_mirrored};
pub use stops::MirrorHalt;
