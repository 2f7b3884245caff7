//! What of a cell goes into the blob of its snapshot record, and how many blocks a commit of a cell needs.
#![tactic(auto)]

mod blobs;
mod needs;
mod ranges;

pub use blobs::write_part;
pub use cell_states::{Cell, Part, Storage, Wish};
pub use needs::{blob_need, is_recorded, need_cell};
