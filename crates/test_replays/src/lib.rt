//! What a history leaves, worked out apart from the kernel that made it: its commits, the greatest closed choice of the first of
//! them, and what is shown of the state of that part, by the plain kernel. And the whole serial history of a script, with its Snaps.
#![tactic(auto)]

mod choices;
mod clocks;
mod fronts;
mod prefixes;
mod replays;
mod serials;
mod shows;

pub use clocks::{Clocks, Commits, commits_of};
pub use fronts::{Front, front_of, fronts_from, means_one_of};
pub use prefixes::{acknowledged, are_rising, common, is_cut_off};
pub use replays::{Replay, is_played, part_of};
pub use serials::serial_history;
pub use shows::{facts_of, shown, shown_of, text_of};
