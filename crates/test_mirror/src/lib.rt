//! Tests of a run that a standby follows.
#![tactic(auto)]

#[cfg(test)]
mod mirrored_tests;
