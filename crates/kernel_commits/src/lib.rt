//! The commits of a running kernel: a record of one cell, the Snaps of what is wished, and the records of a Stable.
#![tactic(auto)]

mod cores;
mod needing;
mod notes;
mod recording;
mod snapping;
mod stabilising;
mod stopping;

pub use cores::Core;
pub use kernel_commit_facts::{Idle, OpenFault, OpenWhy, Store};
pub use kernel_invariant::Stopped;
pub use notes::Notes;
pub use recording::note_fault;
pub use snapping::{snap_one, snap_written};
pub use stabilising::settle;
pub use stopping::{Stop, told_of};
