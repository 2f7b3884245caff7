//! A container copied over the cells of the atlas, of the container and of the newborn. Its pages get their blocks
//! behind that; a copy takes no memory.
#![tactic(auto)]

mod cells;
mod heads;
mod parts;
mod refusals;

pub use cells::{copy_cells, place_pages};
pub use heads::copy_head;
pub use refusals::{container_of, refusal_law, refusal_of};
