//! Images are made here. `format` makes the empty one: no record, and nothing but the atlas is born.
#![tactic(auto)]

mod formatting;

pub use formatting::{FormatFault, FormatWhy, format};
