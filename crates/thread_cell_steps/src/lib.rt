//! Steps of a locus by cells that are lent from under their locks, over the table that the authority knows: one, two or three of them, for
//! every kind of act. Each is the table's step, with all that `advance` of `table_steps` says of it.
#![tactic(auto)]

mod advancing;
mod fitting;
mod steps;

pub use steps::{plan_lent, step_one, step_three, step_two};
pub use table_laws::{Cell, Idle, Plan, Reach, next_plan};
pub use table_steps::{Made, StepFault};
pub use thread_steps::step_cells;
