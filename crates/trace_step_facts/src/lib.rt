//! Which entry may follow in a history, by what a checker keeps: clocks, wishes, and the records of the commits so far. No
//! function stands here: `specs/` has the words, `proofs/` the lemmas.
#![tactic(auto)]

pub use plain_runs::{next_name, plain_step};
