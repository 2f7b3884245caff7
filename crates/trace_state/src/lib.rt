//! What a checker of histories keeps beside the states: vector clocks, wishes for snapshot records, and the commits at or
//! above the cut.
#![tactic(auto)]

mod clocks;
mod cuts;
mod touches;
mod wishes;

pub use clocks::Clocks;
pub use cuts::Cuts;
pub use wishes::Wishes;
