//! The command `copy NAME NEW`: a second container is made in an image that nobody runs, in full or not at all.
#![tactic(auto)]

mod copying;
mod lines;

pub use copying::copy_image;
