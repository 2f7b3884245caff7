//! The step of a locus that maps pages of one container into another, or unmaps them, over the cells of the locus, the
//! atlas and the container.
#![tactic(auto)]

mod beside_parts;
mod besides;
mod mappings;
mod parts;

pub use besides::step_beside;
pub use cell_states::{Cell, Head, Locus, Part, Storage, map, unmap, write_three};
pub use mappings::step_mapping;
