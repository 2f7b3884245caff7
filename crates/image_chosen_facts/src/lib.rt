//! The records of an image that its greatest cut chooses, and the parts that they tell. No function stands here: `specs/` has
//! the words, `proofs/` the lemmas.
#![tactic(auto)]

pub use image_blobs::{
    ChosenEntity, ChosenPart, ContainerBlob, ImageLog, ReadingFault, first_unfit, load,
};
