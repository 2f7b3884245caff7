//! A Stable over all cells of a kernel, each lent from under its own lock to the side that knows all of them.
#![tactic(auto)]

mod lending;
mod needing;
mod rows;
mod settling;

pub use lending::{Bare, CellInLock, LentCell};
pub use rows::{RowFault, lend_all, lend_row, lock_all, number_of};
pub use settling::settle_lent;
pub use thread_commits::{record_lent, snap_touched_one};
