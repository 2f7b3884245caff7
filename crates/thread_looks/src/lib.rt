//! Looks at a locus by cells that are lent from under their locks, over a kernel's parts as the side that keeps the history knows them: the
//! step, and behind it the Snaps that are wished. Each is the look of the serial kernel.
#![tactic(auto)]

mod behind;
mod looking;
mod making;
mod noting;

pub use kernel_core::{Ended, Kernel, Stop};
pub use kernel_core_facts::{Cell, Looked, Notes, Stopped, Store};
pub use looking::{look_one, look_three, look_two, stop_of};
pub use making::{make_one, make_three, make_two};
pub use thread_cell_steps::plan_lent;
