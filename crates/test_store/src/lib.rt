//! A caller of the store of snapshot records over any disk.
#![tactic(auto)]

mod kept_pages;
mod own;

pub use kept_pages::keep_but_one;
pub use own::{OwnStore, Unmade};

#[cfg(test)]
mod cut_finder_tests;
#[cfg(test)]
mod drawn_tests;
#[cfg(test)]
mod snapshot_store_open_tests;
#[cfg(test)]
mod test_stores;
#[cfg(test)]
mod tests;
