//! The books of a snapshot store as its calls go: blocks held, named and taken, records put on the shelf, which are kept, and
//! the course of a commit. No function stands here: `specs/` has the words, `proofs/` the lemmas.
#![tactic(auto)]

pub use data_cuts::{greatest, raise};
pub use log_reading::{Bad, ImageLog, LAST_NUMBER, POOL_AT, ReadingFault, SLOT_COUNT, read_log};
pub use page_words::{Areas, LogFault, block_with, words_in};
pub use store_commit::{commit_record, spelled_blocks};
