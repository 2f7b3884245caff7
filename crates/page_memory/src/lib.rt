//! The memory of a container over a page store, of whose pages only some are resident.
//!
//! Words live in frames while their page is resident, and else in the page's block, or with the supplier where the page
//! has none. Contracts see the words as one function of all addresses. Which page leaves its frame where none is empty
//! is the choice of a clock (`data_frames`).
//!
//! A page that isn't changed has its block's words, so it leaves its frame without a write. A changed page is written
//! first: to its own block, or to a new one where it has none or a kept record names it; the old one is then given
//! back. So what a kept record names is never written.
#![tactic(auto)]

mod fetching;
mod flush;
mod loads;
mod paged;
mod saving;

pub use data_blocks::{NoBlocks, ShadowTable};
pub use page_store::{MemoryPages, PageFault, PageStore};
pub use paged::PagedMemory;
