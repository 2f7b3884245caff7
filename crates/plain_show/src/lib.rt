//! What is shown of a plain state: a line for each container with its regions, capabilities and words, and for each locus
//! with its registers, private regions, calls, walk and capabilities. Code is not shown.
#![tactic(auto)]

mod containers;
mod lines;
mod loci;
mod names;
mod shows;

pub use shows::write_show;
