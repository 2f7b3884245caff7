//! Rounds between a sender of shipments and a standby, over a network that loses and repeats as is drawn.
#![tactic(auto)]

mod rounds;

pub use node_draws::{RoundDraws, draw_round, round_words};
pub use node_standby::{Shipped, Standby};
pub use rounds::{RoundStop, last_rounds, round};
