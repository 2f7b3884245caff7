//! How the lines of a trace are read on: what a line names, whose it is, and what is left. No function stands here: `specs/`
//! has the words, `proofs/` the lemmas.
#![tactic(auto)]

mod spelling;

pub use spelling::joined_law;
pub use trace_steps::{Checker, begin, birth, next};
