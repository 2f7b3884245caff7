//! The step of a locus over cells that are lent one by one, as from under a lock each: one call for every kind of act.
#![tactic(auto)]

mod kinds;
mod laws;
mod steps;

pub use kinds::{go_alone, go_beside, go_with_atlas, go_with_both};
pub use laws::{one_plan_law, table_lends_law};
pub use steps::{go_look, step_cells};
pub use table_steps::{Made, StepFault};
