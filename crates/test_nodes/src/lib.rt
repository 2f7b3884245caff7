//! Tests of the crates of a standby node: a file for each crate.
#![tactic(auto)]

#[cfg(test)]
mod exchange_tests;
#[cfg(test)]
mod images;
#[cfg(test)]
mod made;
#[cfg(test)]
mod newest_tests;
#[cfg(test)]
mod sender_tests;
#[cfg(test)]
mod standby_tests;
#[cfg(test)]
mod turned_disk;
