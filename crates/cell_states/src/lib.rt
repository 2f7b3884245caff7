//! Cells of the kernel: an entity with its version, vector clock and wish; and the steps that touch the locus alone.
#![tactic(auto)]

mod alone;
mod cells;
mod wishes;

pub use act_calls::{
    Head, Locus, back, give, go, invoke, leave, make, map, spawn, stop, take, unmap,
};
pub use alone::{act_alone, step_alone};
pub use cell_clocks::{Clock, read_and_write, write_three, write_two};
pub use cells::{Cell, Part, Storage, Wish};
pub use page_memory::{PageFault, PageStore, ShadowTable};
