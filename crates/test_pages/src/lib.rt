//! Tests of paged memory and of looks, over page stores in memory.
#![tactic(auto)]

mod looker;
mod own;
#[cfg(test)]
mod tests;

pub use looker::Looker;
pub use own::{OwnPages, PAGES, TAG};
