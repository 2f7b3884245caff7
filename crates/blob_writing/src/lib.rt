//! What of an entity goes into the blob of a snapshot record: an atlas, the head of a container with the blocks of its
//! pages, and a locus, each written into room that is there.
#![tactic(auto)]

mod atlases;
mod containers;
mod edges;
mod instructions;
mod lists;
mod loci;
mod numbers;
mod parts;

pub use atlases::write_atlas;
pub use containers::write_container;
pub use loci::write_locus;
