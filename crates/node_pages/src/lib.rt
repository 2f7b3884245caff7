//! A record of a store, read: the last one of an entity, its blob, and the pages that it names.
#![tactic(auto)]

mod faults;
mod finding;
mod paging;
mod recording;

pub use faults::ShipFault;
pub use finding::last_rec;
pub use recording::read_blocks;
