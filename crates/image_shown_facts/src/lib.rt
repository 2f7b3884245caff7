//! The plain state that an accepted image shows, part by part and page by page. No function stands here: `specs/` has the
//! words, `proofs/` the lemmas.
#![tactic(auto)]

pub use image_chosen::{ChosenEntity, ChosenPart, ContainerBlob, ImageParts, read_parts};
pub use image_plain::{plain_atlas, plain_head, plain_locus};
pub use page_words::words_in;
