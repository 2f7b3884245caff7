//! Where a kernel is in the history of its run, whose loci are looked at in any order or in the script's, how the run ends, and why it was stopped; and
//! the same of a run that is watched. Beside one function `specs/` has the words, `proofs/` the lemmas.
#![tactic(auto)]

mod halts;

pub use halts::{Halt, kernel_answer};
pub use kernel_core::{Kernel, Stop};
