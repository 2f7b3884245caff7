//! A container copied in an image that nobody runs, in full or not at all.
#![tactic(auto)]

mod copying;
mod lending;
mod needs;

pub use copying::{Copied, CopyFault, CopyWhy, copy_container};
