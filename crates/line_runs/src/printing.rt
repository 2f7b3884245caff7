//! Printed values, by a directory of names.
ghost use Rattle.std.specs.Prelude.{◌≡◌, ◌≤◌, OnErr};
ghost use Rattle.edge_disk.specs.Counts.{Rose};
ghost use Rattle.line_text.specs.model_kernel.Output.{line_of, name_of_locus, output_of, printed_line};
ghost use Rattle.act_calls.specs.Calls.{atlas_state};
ghost use Rattle.edge_streams.specs.Streams.{Puts};

use arrayvec::ArrayString;
use base_types::{Answer, Entity, Entry, FIRST_LOCUS};
use data_atlas::Atlas;
use edge_streams::{Sink, SinkFault};
use itoa::Buffer;

/// A length that no printed line exceeds.
const PRINTED_LINE: usize = 64;

// The name of the locus with this number; empty where it isn't born.
fn name_of(atlas: &Atlas, locus: Entity) -> ArrayString<24>
    ensures { result.bytes ≡ name_of_locus (atlas_state atlas.now) locus }
{
    // Below the loci's numbers the first locus is looked at, as in the model.
    let number = if locus.number() < FIRST_LOCUS {
        FIRST_LOCUS
    } else {
        locus.number()
    };
    match atlas.name(Entity::of(number)) {
        Some(name) => name,
        None => ArrayString::new(),
    }
}

// The line of one printed value.
fn line_with(name: &ArrayString<24>, value: u64) -> ArrayString<PRINTED_LINE>
    ensures { result.bytes ≡ printed_line name.now.bytes value }
{
    let mut digits = Buffer::new();
    let mut line = ArrayString::new();
    line.push_str(name.as_str());
    line.push_str(" ");
    line.push_str(digits.format(value));
    line.push_str("\n");
    line
}

// Puts the line of an entry, if it has one.
fn put_entry<W: Sink>(sink: &mut W, atlas: &Atlas, entry: &Entry) -> Result<(), SinkFault>
    ensures bytes { Puts (W.held sink.old) (W.held sink.new) result (line_of (atlas_state atlas.now) entry.now) }
    ensures count { W.faults sink.old ≤ W.faults sink.new }
    ensures cause { OnErr result (Rose (W.faults sink.old) (W.faults sink.new)) }
{
    match entry.answer {
        Answer::Print(value) => {
            let line = line_with(&name_of(atlas, entry.actor), value);
            sink.put(line.as_str().as_bytes())
        }
        Answer::Quiet | Answer::Hop | Answer::Reply(_) | Answer::Read(_) => Ok(()),
    }
}

/// Puts a line for each printed value of a history, in order: the name of its locus, a blank, and the value, each line in one call. It
/// takes no memory. After a fault a front of the lines was put.
#[tactic(auto, using(edge_streams::proofs::Streams::puts))]
pub fn put_output<W: Sink>(sink: &mut W, atlas: &Atlas, history: &[Entry]) -> Result<(), SinkFault>
    ensures bytes { Puts (W.held sink.old) (W.held sink.new) result (output_of (atlas_state atlas.now) history.now) }
    ensures count { W.faults sink.old ≤ W.faults sink.new }
    ensures cause { OnErr result (Rose (W.faults sink.old) (W.faults sink.new)) }
{
    for entry in history {
        put_entry(sink, atlas, entry)?;
    }
    Ok(())
}
