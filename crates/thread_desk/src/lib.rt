//! The two sides of a kernel on threads that are not cells: the store under its lock, and beside the history the desk, which knows all of the
//! kernel; and a cell under its lock that says what its entity is.
#![tactic(auto)]

mod desks;
mod names;
mod sights;
mod tills;

pub use desks::{Closed, Desk};
pub use kernel_core::{Apart, Cell, Kernel, Notes, Stopped, Store};
pub use names::{Board, OfStore};
pub use sights::{SightedCell, hear_lent};
pub use table_laws::{Plan, Reach};
pub use tills::{Till, tell_store};
