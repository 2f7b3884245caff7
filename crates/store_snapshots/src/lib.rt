//! A store of snapshot records: it owns the disk, and keeps records on it with their blobs and pages.
#![tactic(auto)]

mod blob_reading;
mod choosing;
mod commits;
mod faults;
mod laws;
mod naming;
mod numbers;
mod opening;
mod page_holding;
mod paged_store;
mod paging;
mod settling;
mod shelf;
mod store;
mod taking;

pub use faults::StoreFault;
pub use laws::same_kept_law;
pub use opening::{OpenFault, OpenWhy, SyncedLog};
pub use store::Store;
