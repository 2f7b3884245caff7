//! Where pages of 128 words are kept: numbered blocks that are taken, written, read and given back.
//!
//! A block is held from `take_block` to `give_back`. A kept record may name blocks too: such a block is read, and
//! not written. The trait's contracts say how each call changes what is held, which words stand where, and how
//! often the store was used. `MemoryPages` is such a store in memory.
#![tactic(auto)]

mod faults;
mod memory;
mod page;
mod store;

pub use edge_disk::NoBlocks;
pub use faults::PageFault;
pub use memory::MemoryPages;
pub use store::PageStore;
