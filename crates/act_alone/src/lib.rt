//! Loci and the heads of containers, and the acts that touch a locus alone.
#![tactic(auto)]

mod lists;
mod local_acts;
mod loci;

pub use lists::{Chain, Code, MOST_INSTRS, Privates};
pub use loci::{Head, Locus};
pub use model_acts::{Act, named_entity, named_rights, new_region, next_address, next_walk};
