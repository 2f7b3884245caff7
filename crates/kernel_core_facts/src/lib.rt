//! Births and looks of the kernel in its run: what is made of each, what is kept behind it, and what stands where one was
//! stopped. Beside a law, why a fault of paging stops a kernel and whether a step owes a Stable, no function stands here: `specs/` has the words,
//! `proofs/` the lemmas.
#![tactic(auto)]

mod birth;
mod looked;
mod owing;

pub use birth::birth_law;
pub use kernel_commits::{
    Core, Idle, Notes, OpenFault, OpenWhy, Stop, Stopped, Store, settle, snap_one, snap_written,
    told_of,
};
pub use looked::{Looked, page_stop};
pub use owing::owes_stable;
pub use table_births::{Cell, Made, Part, Progress, StepFault, advance, bear_next};
