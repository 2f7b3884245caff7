//! A kernel over its cells and the store of its image.
#![tactic(auto)]

mod bearing;
pub mod examples;
mod kernels;
mod looking;
mod parts;
mod stepping;

pub use kernel_core_facts::{Cell, Idle, Notes, Stop, Stopped, Store};
pub use kernels::{Ended, Kernel};
pub use parts::Apart;
