//! The disk: blocks of 1,024 bytes, what a stop of the machine may leave of them, and a disk in memory that keeps its past.
#![tactic(auto)]

mod calls;
mod disk;
mod memory;
mod stretches;
mod tape;

pub use calls::Torn;
pub use disk::{BLOCK_BYTES, Disk, DiskFault, NoBlocks};
pub use memory::MemoryDisk;
pub use stretches::{write_and_sync, write_run};
