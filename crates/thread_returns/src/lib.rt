//! What comes back when threads have ended: values with their fragments, each put at its number, and the passes of workers.
#![tactic(auto)]

mod passes;
mod values;

pub use passes::take_back_all;
pub use values::Returning;
