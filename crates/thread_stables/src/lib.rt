//! Looks at a locus for which all cells of a kernel are lent from under their locks: the step, and behind it the Stable that it owes, or the
//! Snaps that are wished. Each is the look of the serial kernel.
#![tactic(auto)]

mod behind;
mod looking;

pub use kernel_core_facts::{Cell, Idle, Made, Notes, Part, Stopped, Store, owes_stable};
pub use looking::look_all;
pub use thread_looks::{Looked, look_one, look_three, look_two, make_one, plan_lent, stop_of};
pub use thread_settling::{
    CellInLock, LentCell, RowFault, lend_all, lend_row, lock_all, number_of, record_lent,
    settle_lent, snap_touched_one,
};
