//! The report of an image's log: its area, its records with their state, and the cut.
#![tactic(auto)]

mod reports;

pub use reports::{LogFacts, put_report};
