//! The command `format N`: an empty image of N blocks is made on a disk.
#![tactic(auto)]

mod formatting;

pub use formatting::format_image;
