//! What is shipped of an entity to a second node: all that a record of it tells, with the words of its pages in place of their blocks.
#![tactic(auto)]

mod parts;
mod reading;
mod shipments;

pub use kernel_records::Store;
pub use node_store::deliver_record;
pub use page_placing::PageWords;
pub use parts::ShipPart;
pub use reading::read_shipment;
pub use shipments::{Shipped, shipment_law};
