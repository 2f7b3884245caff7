//! The parts of an image: what its chosen records spell, read from a disk, in ascending order of their entities.
//!
//! Who reads an image without changing it and who opens one to go on with it both begin so, behind the reading of its log.
#![tactic(auto)]

mod choosing;
mod entities;
mod fitting;
mod parts;
mod tables;

pub use image_chosen_facts::{ChosenEntity, ChosenPart, ContainerBlob};
pub use parts::{ImageParts, read_parts};
pub use tables::{page_tables, table_for};
