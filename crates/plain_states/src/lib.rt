//! The plain kernel's states as ordinary lists and maps: what is read of them, their edges and entries, and births on them,
//! each of which is the abstract kernel's.
#![tactic(auto)]

mod births;
pub mod circles;
pub mod edges;
pub mod entries;
pub mod looks;
mod names;
mod plain;
pub mod reads;
mod tables;

pub use births::{plain_birth, push_within};
pub use model_kernel::{
    cut_law, greatest_choice_law, locality_law, printed_law, replay_law, stable_law, vector_law,
};
pub use names::{container_named, free_container, free_locus, number_among, number_of};
pub use plain::{Edge, Plain, PlainAtlas, PlainContainer, PlainLocus};
pub use tables::insert_region;
