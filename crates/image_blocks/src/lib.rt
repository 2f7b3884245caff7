//! Where the parts of an image stand on a disk, how its superblock, headers, gates and records are spelled there, and
//! which images have a log.
//!
//! Block 0 is the superblock. Blocks 1 and 2 are the header and the gate of area A, blocks 3 and 4 those of area B. 640
//! slots of A follow, and then 640 of B: of each slot its body and its gate. From block 2,565 on the image is a pool of
//! blocks for what records name. All numbers are spelled with the lowest byte first.
#![tactic(auto)]

mod areas;
mod blocks;
mod bodies;
mod body_reading;
mod faults;
mod laws;
mod superblocks;

pub use areas::{Area, body_of, gate_of, header_of, other_area};
pub use blocks::{closed_gate, epoch_of, header_block, is_open, open_gate, read_header};
pub use bodies::body_block;
pub use body_reading::read_body;
pub use edge_disk::BLOCK_BYTES;
pub use faults::Bad;
pub use laws::{examples_hold, fitting_law, log_back_law, log_law, records_rest_law};
pub use superblocks::{read_superblock, superblock};

/// How many slots an area has.
pub const SLOT_COUNT: u16 = 640;

/// The first block of the pool.
pub const POOL_AT: u32 = 2565;

/// The least number of blocks of an image, and the greatest.
pub const LEAST_BLOCKS: u32 = 2600;

pub const MOST_BLOCKS: u32 = 65536;

/// The greatest epoch, version and component of a stamp.
pub const LAST_NUMBER: u64 = 1 << 62;

/// The greatest length of a blob in bytes.
pub const MOST_LENGTH: u32 = 8192;
