//! Records of a kernel's cells, each lent to the side that knows all of them: of one cell, and of those that a step wrote.
#![tactic(auto)]

mod recording;
mod snapping;
mod touching;

pub use kernel_commit_facts::{Cell, Store, is_recorded, mark_entry, need_cell};
pub use kernel_commits::{Notes, Stopped};
pub use recording::{commit_lent, record_lent};
pub use snapping::snap_lent;
pub use touching::{snap_touched_one, snap_touched_three, snap_touched_two};
