//! Traces, their checks and drills: `worked` has traces that were worked out by hand, and `tracing` of the crate makes runs and checks.
mod drill_tests;
mod own_tests;
mod refusal_tests;
mod worked;
mod worked_tests;
mod wrong_tests;
