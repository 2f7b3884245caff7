//! What the parts of an image are in the plain kernel: atlases, heads of containers and loci, as ordinary lists.
#![tactic(auto)]

mod atlases;
mod cells;

pub use atlases::plain_atlas;
pub use cells::{plain_head, plain_locus};
