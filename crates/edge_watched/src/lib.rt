//! A disk that remembers, for proofs alone, how it was handed in.
//!
//! What is generic in a disk says of it what its clauses say, and not that nothing else came between. A watched disk has an invariant that
//! each of its calls keeps: it has as many blocks as it had, its counts didn't fall, and what a stop had left before it was handed in is
//! still what it had left. So whoever hands one to a kernel knows this of the disk that comes back, whatever the kernel tells.
#![tactic(auto)]

mod watching;

pub use watching::{Handed, WatchedDisk};
