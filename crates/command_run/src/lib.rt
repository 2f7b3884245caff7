//! The commands `run` and `drill`: a script's run from the state that an image means, by the kernel over its store, and what is put of it.
#![tactic(auto)]

mod drilling;
mod playing;
mod putting;
mod running;
mod watching;

pub use command_open::{Unopened, open_for};
pub use drilling::run_drill;
pub use putting::{Lines, met_by, put_lines, put_run};
pub use running::run_script;
pub use watching::unwatched;
