//! A kernel taken apart, each of its cells under a lock of its own, driven on one thread: each look takes the locks that its step wants.
#![tactic(auto)]

mod kernels;
mod lending;
mod looking;
mod parts;

pub use kernels::LentKernel;
