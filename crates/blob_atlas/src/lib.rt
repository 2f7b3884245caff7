//! Blobs of atlases, read.
#![tactic(auto)]

mod atlases;
mod edges;
mod names;

pub use atlases::read_atlas;
pub use blob_reading::{BadBlob, ContainerBlob, read_container, read_locus};
