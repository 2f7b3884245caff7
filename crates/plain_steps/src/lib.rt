//! Steps of the plain kernel, each of which is the abstract kernel's: the acts on plain states, and the step of a locus by them.
#![tactic(auto)]

mod acts;
mod atlas_acts;
mod atlas_steps;
mod beside_acts;
mod carry;
mod local_acts;
mod program_births;
mod steps;

pub use steps::plain_step;
