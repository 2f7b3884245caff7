//! The calls that work on what a capability names: regions, copies of capabilities, births, and control.
#![tactic(auto)]

mod births;
mod control;
mod mappings;
mod replies;
mod sharing;

pub use act_invoke::{Act, Chain, Code, Head, Locus, MOST_INSTRS, Privates, back, invoke, leave};
pub use births::{make, spawn};
pub use control::{go, go_itself, stop, stop_itself};
pub use mappings::{map, unmap};
pub use sharing::{give, take};
