//! That a board may be shared among threads: lemmas, without code.
#![tactic(auto)]

pub use thread_locks::Locks;
