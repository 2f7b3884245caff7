//! Runs of a script by a kernel: its births, the picks of its order, and rounds over all loci to their end; and runs that are watched, and halted
//! where the watcher wants no more.
#![tactic(auto)]

mod looking;
mod rounds;
mod running;
mod watching;

pub use kernel_run_facts::{Halt, Kernel};
pub use looking::play;
pub use rounds::finish;
pub use running::{run, run_watched};
pub use watching::Watcher;
