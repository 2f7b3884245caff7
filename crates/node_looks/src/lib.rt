//! How many commits a history completes, and how many were completed behind each of its steps: by its entries alone.
#![tactic(auto)]

mod counting;
mod following;

pub use counting::{commits_made, commits_opened};
pub use following::commits_behind_law;
pub use kernel_core::Kernel;
pub use kernel_runs::{Watcher, run_watched};
pub use kernel_watchers::{shown_commits_law, step_count_at};
