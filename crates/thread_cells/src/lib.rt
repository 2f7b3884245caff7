//! The cells of a kernel, each under a lock of its own, which the side that knows all cells knows as they are.
#![tactic(auto)]

pub mod cells;

pub use cells::{LockedCell, tell};
