//! The plain data types that every crate of the kernel shares: entities and their numbers, rights and
//! capabilities, instructions and replies, entries of histories, and snapshot records.
#![tactic(auto)]

mod capabilities;
mod entities;
mod histories;
mod instructions;
mod limits;
mod records;

pub use capabilities::{Cap, Private, Region, Right, Rights};
pub use entities::{Entity, Kind};
pub use histories::{Answer, Entry, Event, Touch, Touched};
pub use instructions::{Call, Condition, Instr, Reply, Walk};
pub use limits::{
    FIRST_CONTAINER, FIRST_LOCUS, MOST_CALLS, MOST_CAPS, MOST_CONTAINERS, MOST_ENTITIES, MOST_HOPS,
    MOST_LOCI, MOST_PAGES, MOST_PRINTED, MOST_PRIVATES, MOST_REGIONS, MOST_SCRIPT_BYTES,
    PAGE_WORDS,
};
pub use records::{Cut, Rec};
