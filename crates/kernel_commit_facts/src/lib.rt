//! How the commits of a kernel go through: rooms and needs before and after each, what stands where one was stopped, and what
//! a Stable comes to. No function stands here: `specs/` has the words, `proofs/` the lemmas.
#![tactic(auto)]

pub use kernel_book_laws::{
    FULL, Idle, OpenFault, OpenWhy, Store, StoreFault, commit_cell, mark_entry,
};
pub use table_steps::{Cell, is_recorded, need_cell};
