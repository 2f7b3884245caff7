//! A checker of histories, entry by entry: which may follow, by plain states, versions, clocks, wishes and the cut.
#![tactic(auto)]

mod births;
mod checker;
mod commits;
mod following;
mod queries;
mod snaps;
mod stables;
mod starts;
mod steps;
mod wants;

pub use births::birth;
pub use checker::Checker;
pub use commits::{commit_one, record_of};
pub use following::next;
pub use queries::{every_at, has_wish, may_commit};
pub use snaps::{snap, try_record};
pub use stables::stable;
pub use starts::begin;
pub use steps::step;
pub use wants::{asked_at, intervals, is_any_due, owed_at, where_ok};
