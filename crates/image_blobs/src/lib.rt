//! One chosen blob of an image, read: its blocks, what its bytes spell, and the rest of its last block.
#![tactic(auto)]

mod loading;
mod parsing;
mod places;
mod rooms;

pub use image_fits::{ChosenEntity, ChosenPart, ContainerBlob, first_unfit};
pub use loading::load;
pub use log_reading::{ImageLog, ReadingFault};
