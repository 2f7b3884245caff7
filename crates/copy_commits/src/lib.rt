//! The two records of a copy, committed: the atlas's first, and the copy's behind it. Each needs the other, so that a stop between them leaves an
//! image of the state of before.
#![tactic(auto)]

mod pairs;
mod putting;

pub use pairs::commit_pair;
pub use putting::put_copy;
