//! Where bytes come into the system and leave it: sources and sinks that count their faults, in memory and over std's
//! readers and writers, and a file as a disk.
#![tactic(auto)]

mod files;
mod memory;
mod reading;
mod sink;
mod source;
mod standard;

pub use files::FileDisk;
pub use memory::{MemorySink, MemorySource};
pub use reading::{PIECE_BYTES, ReadStop, read_all};
pub use sink::{Sink, SinkFault};
pub use source::{Source, SourceFault};
pub use standard::{ReadSource, WriteSink};
