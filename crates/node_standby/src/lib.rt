//! A second node: it takes numbered shipments of another kernel's run, one after another, and keeps a record of each on an image of its own.
#![tactic(auto)]

mod faults;
mod laws;
mod standby;

pub use faults::{StandbyFault, StandbyWhy};
pub use kernel_views::StoreFault;
pub use laws::{following_law, image_law, takeover_law};
pub use node_shipments::{PageWords, ShipPart, Shipped};
pub use standby::Standby;
