//! The lines of a history: the trace, a line for each entry, and the summary of a history in one line.
#![tactic(auto)]

mod entries;
mod summaries;
mod touches;

pub use entries::{put_trace, write_entry};
pub use summaries::put_summary;
