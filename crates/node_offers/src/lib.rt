//! The new commits of a running kernel, offered to a sender as shipments, in their order.
#![tactic(auto)]

mod offering;

pub use node_newest::ShipFault;
pub use offering::offer_new;
