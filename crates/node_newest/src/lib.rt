//! The newest record of an entity, read out of a running kernel's image as a shipment.
#![tactic(auto)]

mod asking;
mod recording;

pub use asking::newest;
pub use node_lending::{Cell, Kernel};
pub use node_pages::ShipFault;
pub use node_shipments::Shipped;
