//! What a snapshot record of a cell tells. The function does nothing: its contract is the law.
#![tactic(auto)]

ghost use Rattle.kernel_record_facts.specs.Telling.{ToldRecordLaw};

pub use cell_blobs::{Cell, Part, Storage, Wish, blob_need, is_recorded, need_cell, write_part};

/// A record with a cell's number, version and clock, whose blob spells its part and whose pages are those of its memory as the image
/// has them, tells what the entity is in each state that has the cell, where no page is changed.
pub fn told_record_law()
    ensures { ToldRecordLaw }
{}
