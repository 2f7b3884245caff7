// The line of a copy.
ghost use Rattle.std.specs.Prelude.{◌≡◌, ◌≤◌, OnErr};
ghost use Rattle.edge_disk.specs.Counts.{Rose};
ghost use Rattle.edge_streams.specs.Streams.{Puts};
ghost use Rattle.command_outcomes.specs.Ends.{IsPut};
ghost use Rattle.command_outcomes.specs.Seen.{seen_sink};
ghost use Rattle.command_copy.specs.Copies.{copied_text, number_end};

use arrayvec::ArrayString;
use base_types::Entity;
use command_outcomes::Status;
use edge_streams::{Sink, SinkFault};
use itoa::Buffer;

/// A length that the end of no copy's line exceeds.
const LINE_END: usize = 8;

// The end of a copy's line: its number.
fn number_end(number: Entity) -> ArrayString<LINE_END>
    ensures { result.bytes ≡ number_end number }
{
    let mut digits = Buffer::new();
    let mut end = ArrayString::new();
    end.push_str(" ");
    end.push_str(digits.format(number.number()));
    end.push_str("\n");
    end
}

// Puts the line of a copy in pieces.
#[tactic(auto, using(edge_streams::proofs::Streams::puts))]
fn put_line<W: Sink>(sink: &mut W, fresh: &str, number: Entity) -> Result<(), SinkFault>
    ensures bytes { Puts (W.held sink.old) (W.held sink.new) result (copied_text fresh.now number) }
    ensures count { W.faults sink.old ≤ W.faults sink.new }
    ensures cause { OnErr result (Rose (W.faults sink.old) (W.faults sink.new)) }
{
    let end = number_end(number);
    sink.put(b"copied ")?;
    sink.put(fresh.as_bytes())?;
    sink.put(end.as_str().as_bytes())?;
    Ok(())
}

/// Puts `copied`, the name of a copy and its number, each behind a blank, and tells how that ended.
pub(crate) fn put_copied<W: Sink>(sink: &mut W, fresh: &str, number: Entity) -> Status
    ensures put { IsPut (seen_sink W.held W.faults sink.old sink.new) (copied_text fresh.now number) result }
    ensures count { W.faults sink.old ≤ W.faults sink.new }
{
    if put_line(sink, fresh, number).is_ok() {
        Status::Done
    } else {
        Status::SinkFault
    }
}
