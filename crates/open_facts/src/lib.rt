//! What an opened image tells its kernel: cells, books, and the cause where it is refused. No function stands here: `specs/`
//! has the words, `proofs/` the lemmas.
#![tactic(auto)]

pub use kernel_views::{OpenFault, OpenWhy, Store, SyncedLog};
pub use table_opened::{Cell, ImageParts, cells_of, page_tables, read_parts};
