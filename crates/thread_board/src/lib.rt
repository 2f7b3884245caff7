//! The board's table: commits, passes and items, as each thread knows them.
#![tactic(auto)]

pub mod joint;
mod laws;
pub mod lines;
pub mod notices;
pub mod opened;
pub mod passes;
mod seats;
mod sides;
pub mod slates;
pub mod slips;
#[cfg(test)]
mod tests;
pub mod tills;
pub mod views;

pub use laws::{passes_law, rule_law};
pub use lines::{Line, Placed};
pub use notices::StopNote;
pub use opened::Opened;
pub use passes::{Fresh, Pass};
pub use slates::{Bench, Slate};
pub use slips::Slip;
pub use tills::Till;
pub use views::PassItem;
