//! The log of an image, read by the checks of its superblock, its areas and its bodies, with the first bad place where one of
//! them fails. Nothing is written.
//!
//! The checks come in this order. The superblock: the 8 bytes, the format, the number of blocks, zeros. The areas: a gate is
//! open, and where both are, the epochs differ; the active area's header. The bodies of its slots before the first closed
//! gate, in order.
#![tactic(auto)]

mod faults;
mod front;
mod log;
mod looks;
mod slots;

pub use faults::ReadingFault;
pub use image_blocks::{Bad, LAST_NUMBER, POOL_AT, SLOT_COUNT};
pub use log::{ImageLog, read_log};
