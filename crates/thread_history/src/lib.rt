//! A history that all threads know a part of: its authority, which appends, and a share of each entity.
#![tactic(auto)]

mod appending;
pub mod authorities;
pub mod chronicles;
pub mod closing;
pub mod entries;
pub mod examples;
pub mod items;
mod laws;
pub mod opened;
pub mod order;
mod seats;
pub mod shares;
mod sides;
#[cfg(test)]
mod tests;
pub mod views;

pub use authorities::HistoryAuthority;
pub use chronicles::Chronicle;
pub use closing::{Closing, ClosingAuthority};
pub use items::Item;
pub use laws::{all_numbers_law, known_state_law, rule_law};
pub use opened::{ChronicleFault, Opened, OpenedHistory};
pub use order::{Numbered, put_in_order};
pub use shares::{Run, Share};
