//! An image opened for a script that is to run on it.
#![tactic(auto)]

mod laws;
mod opening;

pub use command_promises::{Ended, Kernel, Stopped, run};
pub use laws::failed_sync_law;
pub use opening::{Unopened, open_for};
