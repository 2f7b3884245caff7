//! An image opened for a kernel: a sync of its disk, its log, the parts that its chosen records spell, a store that keeps these records
//! alone, and the 64 cells that they tell.
#![tactic(auto)]

mod keeping;
mod laws;
mod opening;
mod reading;

pub use keeping::keep_image;
pub use laws::{keeping_law, opened_law};
pub use open_facts::{OpenFault, OpenWhy};
pub use opening::open_parts;
