//! The step of a locus that makes a container or spawns a locus, over the cells of the locus, the atlas and the newborn.
#![tactic(auto)]

mod births;
mod containers;
mod loci;
mod refused;

pub use births::{step_make, step_spawn};
pub use refused::step_no_number;
