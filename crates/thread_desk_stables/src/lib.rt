//! Looks in a desk for which all cells of a kernel are lent from under their locks: the step by the locus alone, and behind it the Stable that it
//! owes, or the Snap that is wished, with each entry told to the history and each cell let go lawfully.
#![tactic(auto)]

mod desks;
mod hearing;
mod lent;
mod stabling;
mod stepping;
mod telling;

pub use desks::look_all;
pub use lent::{InDesk, lend_all};
pub use thread_desk_looks::{
    Apart, Board, Cell, Closed, Desk, Kernel, OfStore, SightedCell, Store, Till, look_one,
    look_three, look_two,
};
pub use thread_stables::{Idle, Looked, RowFault, Stopped};
