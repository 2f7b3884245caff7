//! Where a trace goes wrong.
use arrayvec::ArrayString;
use base_types::Entry;
use line_text::LINE;

/// Why a trace is not accepted.
#[derive(Debug, Drop)]
pub enum TraceFault {
    /// The line of this number, from 1 on, is that of no entry that may be next.
    At {
        line: u64,
        /// The birth or step that the line names by its first two words, where it may be next.
        want: Option<Entry>,
        /// That entry's line without its end, or `none`.
        text: ArrayString<LINE>,
    },
    Memory,
}
