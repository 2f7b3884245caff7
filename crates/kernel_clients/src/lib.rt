//! A runtime that keeps its objects in an image, by the kernel's own calls: it opens the image, gives births by a script, lets loci run in the
//! order that it chooses, or all to their end, and finds its objects again behind a stop at any moment.
#![tactic(auto)]

mod serving;
mod stopping;
#[cfg(test)]
mod tests;

pub use command_open::{Kernel, Unopened};
pub use serving::{let_run, open_objects, run_to_end};
pub use stopping::{Found, Lost, keep_and_stop, stop_and_find};
