//! The step of a locus that makes one look of a load or a store, over the cells of the locus and the container.
#![tactic(auto)]

mod looks;
mod parts;

pub use cell_states::{Cell, Part, step_alone};
pub use looks::step_look;
