//! A run on one disk whose records a standby on a second disk follows, over a network that loses and repeats as is drawn.
#![tactic(auto)]

mod calling;
mod ending;
mod faults;
mod playing;
mod statuses;

pub use calling::mirror;
pub use faults::{MirrorFault, SecondFault, put_mirror_fault};
pub use statuses::{MirrorOutcome, MirrorStatus, MirrorWhy};
