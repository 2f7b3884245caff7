//! Tests of the log: records that are appended and kept on a disk in memory, with calls that fail and stops at each moment.
#![tactic(auto)]

mod client;
#[cfg(test)]
mod images;
#[cfg(test)]
mod quiet_disk;
#[cfg(test)]
mod tests;

pub use client::{append_and_turn, begin_log};

#[cfg(test)]
mod image_blocks_tests;
#[cfg(test)]
mod log_reading_tests;
#[cfg(test)]
mod page_words_tests;
#[cfg(test)]
mod store_model_tests;
