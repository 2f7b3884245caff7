//! A record is committed: the log is turned where it is full, the blob is written into free blocks, and the record is
//! appended. A stop at any moment leaves what was kept, or that and the new record.
#![tactic(auto)]

mod blobs;
mod commits;
mod laws;
mod spelled;

pub use commits::commit_record;
pub use laws::{agreed_law, kept_fit_law, ready_law, true_after_law};
pub use spelled::spelled_blocks;
