//! Pages placed in blocks of a page store that were free, for a table that had none: given pages, and those of another table.
#![tactic(auto)]

mod copying;
mod placing;
mod writing;

pub use copying::{copy_pages, count_blocks};
pub use writing::{PageWords, give_back_pages, write_pages};
