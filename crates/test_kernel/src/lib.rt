//! A caller of the kernel over any disk, and tests of whole runs over disks in memory: a file for each theme.
#![tactic(auto)]

mod own;
mod snapped;

pub use own::{OwnKernel, Unborn};
pub use snapped::{Snaps, snap_both, snap_new};

#[cfg(test)]
mod calls;
#[cfg(test)]
mod fault_tests;
#[cfg(test)]
mod forms;
#[cfg(test)]
mod history_tests;
#[cfg(test)]
mod parts_tests;
#[cfg(test)]
mod record_tests;
#[cfg(test)]
mod scripts;
#[cfg(test)]
mod side_tests;
#[cfg(test)]
mod step_tests;
#[cfg(test)]
mod stop_tests;
