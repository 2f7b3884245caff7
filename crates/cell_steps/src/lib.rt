//! Steps of a locus over lent cells, which take the step in: the cells, their versions, clocks and wishes are those after it.
#![tactic(auto)]

mod advances;
mod bearings;
mod laws;
mod lookings;
mod noting;

pub use advances::{advance_alone, advance_beside};
pub use bearings::{advance_barren, advance_making, advance_mapping, advance_spawning};
pub use cell_looks::{Cell, Part};
pub use cell_plans::{Act, Idle, Plan, Reach, next_plan};
pub use laws::{kept_memory_law, noting_law, unlent_cells_law};
pub use lookings::advance_looking;
