//! Blobs of snapshot records, read: those of containers and loci.
//!
//! A blob is read by the set of all spellings: what is told of other bytes is the first byte at which no spelling goes on. Often
//! it stands earlier than the byte that breaks a rule, as where a region leaves no page for those that must follow it. So each
//! field is read with the bounds that what follows it leaves, and a number byte by byte with the bounds that its lower bytes leave.
#![tactic(auto)]

mod calls;
mod containers;
pub mod fields;
mod forms;
mod instrs;
mod lists;
mod loci;
mod places;
mod privates;
mod regions;
mod slots;
mod walks;

pub use containers::{ContainerBlob, read_container};
pub use loci::read_locus;
pub use places::{BadBlob, place_of};
