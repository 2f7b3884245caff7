//! Watchers of a run (`kernel_runs`): one that halts it once so many steps are made; and who finds the new commits of a run behind each look.
#![tactic(auto)]

mod finding;
mod limiting;

pub use finding::shown_commits_law;
pub use kernel_runs::{Halt, finish, play};
pub use limiting::{run_steps, step_count_at};
