//! The spelling of instructions, read and written.
#![tactic(auto)]

mod building;
mod forms;
mod numbers;
mod operands;
mod reading;
mod words;
mod writing;

pub use building::code;
pub use reading::{BadInstr, read_line};
pub use writing::{write_line, write_rights};
