//! What the kernel's calls rest on, as tests that run; and one test that steps the plain kernel and the kernel's own
//! calls side by side.
#![tactic(auto)]

mod edges;
mod names;
mod ready;

pub use edges::is_counted;
pub use names::names_born;
pub use ready::is_ready;

#[cfg(test)]
mod beside;
#[cfg(test)]
mod both;
#[cfg(test)]
mod by_hand;
#[cfg(test)]
mod kernel;
#[cfg(test)]
mod locus_machine_tests;
#[cfg(test)]
mod made;
#[cfg(test)]
mod manager_code_tests;
#[cfg(test)]
mod page_store_tests;
#[cfg(test)]
mod programs;
#[cfg(test)]
mod same;
#[cfg(test)]
mod script_against_tests;
