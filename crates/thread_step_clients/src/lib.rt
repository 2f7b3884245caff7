//! Clients of `step_cells`: the step of a locus over a table of cells, of which the cells that the step touches are lent, and no others.
#![tactic(auto)]

mod advancing;
mod images;
mod lending;
#[cfg(test)]
mod tests;

pub use advancing::advance_lent;
pub use images::advance_over_image;
pub use thread_cell_steps::{Made, StepFault};
