//! The step of a locus over the table of cells. It keeps the table in order (`IsOrderly` of `table_laws`) whatever the page store tells; where
//! the store tells its content, it is the abstract kernel's step.
#![tactic(auto)]

mod bearings;
mod besides;
mod looks;
mod stepping;

pub use stepping::{Made, StepFault, advance};
pub use table_laws::{Cell, is_recorded, need_cell};
