//! The cells of a kernel as an opened image makes them: of each of the 64 entities its chosen part, or nothing that is born.
#![tactic(auto)]

mod cells;
mod laws;
mod parts;
mod table;

pub use image_chosen::{ImageParts, page_tables, read_parts};
pub use kernel_record_facts::Cell;
pub use laws::no_blocks_law;
pub use table::cells_of;
