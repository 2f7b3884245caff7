//! An image, read without a write: its log with the cut, and the state that it means as the plain kernel has states; and both printed.
#![tactic(auto)]

mod containers;
mod faults;
mod image;
mod loci;
mod pages;
mod printing;
mod state;
mod words;

pub use image::{ImageFacts, read_image};
pub use printing::{write_report, write_show};
