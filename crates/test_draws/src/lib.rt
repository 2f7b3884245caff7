//! Scripts that are drawn from numbers, for tests over all instructions.
#![tactic(auto)]

mod scripts;

pub use scripts::drawn;
