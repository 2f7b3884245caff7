//! Tests of a second node that follows a whole run.
#![tactic(auto)]

#[cfg(test)]
mod first;
#[cfg(test)]
mod following_tests;
#[cfg(test)]
mod images;
#[cfg(test)]
mod second;
