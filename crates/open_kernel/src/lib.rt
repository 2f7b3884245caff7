//! An image opened into a kernel, which takes no memory from then on.
#![tactic(auto)]

mod opening;

pub use kernel_core::{Ended, Kernel, Stop, Stopped};
pub use open_image::{OpenFault, OpenWhy};
pub use opening::open_image;
