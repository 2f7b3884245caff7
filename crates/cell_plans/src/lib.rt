//! What the step of a locus touches besides the locus, so that its caller can lend those cells; and which loci make none.
#![tactic(auto)]

mod idle;
mod plans;

pub use act_look::{Act, Locus};
pub use cell_calls::{step_beside, step_mapping};
pub use idle::{Idle, why_idle};
pub use plans::{Plan, Reach, next_plan};
