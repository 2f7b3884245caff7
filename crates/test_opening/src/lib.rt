//! A caller of `open_kernel` over any disk, and tests of it in memory.
#![tactic(auto)]

mod made;

pub use made::open_made;

#[cfg(test)]
mod image_opening_tests;
#[cfg(test)]
mod images;
#[cfg(test)]
mod opened_cells_tests;
#[cfg(test)]
mod refused_tests;
#[cfg(test)]
mod tests;
