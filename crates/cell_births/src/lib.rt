//! The births of a script's containers and loci, over the cells of the atlas, the newborn and a locus's host. No birth takes
//! memory: the cell of a container has its memory from the start.
#![tactic(auto)]

mod births;
mod containers;
mod laws;
mod loci;
mod names;
mod tables;

pub use births::{bear_container, bear_locus};
pub use cell_wish_laws::{Part, Storage};
pub use containers::{link, name_container};
pub use laws::{next_births_are_named, next_births_may_be_made};
pub use script_fits::{NextTable, Progress, next_table};
