//! What went wrong, told to people: one sentence for each status that isn't 0, with what was refused or failed, where, and what to do.
#![tactic(auto)]

mod sentences;

pub use sentences::{put_sentence, put_unopened};
