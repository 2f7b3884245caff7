//! The births of a script over the table of cells. Each keeps the table in order (`IsOrderly` of `table_laws`), and is the abstract
//! kernel's next birth of the script. No birth looks at a page store or takes memory.
#![tactic(auto)]

mod bearing;
mod lending;

pub use bearing::bear_next;
pub use cell_births::{Part, Progress, Storage};
pub use lending::atlas_of;
pub use table_steps::{Cell, Made, StepFault, advance};
