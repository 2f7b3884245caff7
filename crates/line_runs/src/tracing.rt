//! Entries of a history, by a directory of names.
ghost use Rattle.std.specs.Prelude.{◌≤◌, OnErr};
ghost use Rattle.edge_disk.specs.Counts.{Rose};
ghost use Rattle.line_entries.specs.Entries.{trace_of};
ghost use Rattle.act_calls.specs.Calls.{atlas_state};
ghost use Rattle.edge_streams.specs.Streams.{Puts};

use arrayvec::ArrayString;
use base_types::{Entity, Entry, Kind};
use data_atlas::Atlas;
use edge_streams::{Sink, SinkFault};
use line_entries::put_trace;
use line_text::{LINE, Names};

/// The names of a directory.
#[derive(Clone, Copy)]
struct DirectoryNames<'a> {
    atlas: &'a Atlas,
}

impl Names for DirectoryNames<'_> {
    ghost use Rattle.act_calls.specs.Calls.{atlas_state};

    ghost atlas = { λ names. atlas_state names.atlas.now };

    #[tactic(auto, unfolding(line_text::specs::Lines::name_in))]
    fn append_name(&self, entity: Entity, line: &mut ArrayString<LINE>) {
        match self.atlas.name(entity) {
            Some(name) => line.push_str(name.as_str()),
            None => {}
        }
    }
}

/// Puts the trace of a history: a line for each entry, in order, each in one call, by the names of the directory. It takes no memory.
/// After a fault a front of the trace was put.
pub fn put_traced<W: Sink>(sink: &mut W, atlas: &Atlas, history: &[Entry]) -> Result<(), SinkFault>
    ensures bytes { Puts (W.held sink.old) (W.held sink.new) result (trace_of (atlas_state atlas.now) history.now) }
    ensures count { W.faults sink.old ≤ W.faults sink.new }
    ensures cause { OnErr result (Rose (W.faults sink.old) (W.faults sink.new)) }
{
    // `named` says that no name has more than 24 bytes.
    prove!(atlas.named(Kind::Atlas) == 1);
    put_trace(sink, &DirectoryNames { atlas }, history)
}
