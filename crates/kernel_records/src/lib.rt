//! What joins a cell of the kernel to the store: its changed pages are written, and its record is committed.
#![tactic(auto)]

mod commits;
mod flushing;
mod laws;
mod recording;
mod snaps;

pub use commits::commit_cell;
pub use flushing::flush_part;
pub use laws::{
    few_kept_law, kept_more_law, left_cell_law, newest_law, settled_store_law, told_commit_law,
};
pub use recording::{record_cell, table_of};
pub use snaps::{FULL, mark_entry, snap_cell};
pub use store_snapshots::{OpenFault, OpenWhy, Store, StoreFault, SyncedLog};
