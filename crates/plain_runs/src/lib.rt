//! Runs of scripts on plain states, one entry after another: the serial history of the abstract kernel.
#![tactic(auto)]

mod code;
mod fitting;
mod looks;
mod names;
mod newborns;
mod plays;
mod serial;

pub use code::has_no_snaps;
pub use fitting::against;
pub use names::next_name;
pub use plain_steps::plain_step;
pub use plays::{Played, finish, play, replay};
pub use serial::SerialRun;
