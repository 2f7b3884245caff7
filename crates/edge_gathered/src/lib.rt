//! A writer that gathers what is written, so that many small writes are few.
#![tactic(auto)]

mod gathering;

pub use gathering::GatheringWriter;
