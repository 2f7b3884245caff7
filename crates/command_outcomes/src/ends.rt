//! The end of a call that ran nothing.
ghost use Rattle.std.specs.Prelude.{◌≡◌, ◌≤◌};
ghost use Rattle.command_outcomes.specs.Ends.{IsEmpty, IsUnrun};
ghost use Rattle.command_outcomes.specs.Seen.{gave, seen_sink};
ghost use Rattle.command_outcomes.specs.Statuses.{status_by};

use crate::faults::{Fault, put_fault};
use crate::statuses::{Outcome, Status, status_of};
use edge_streams::Sink;
use std::alloc::Global;

/// What a call gives that ran nothing.
pub fn empty_outcome<D>(alloc: Global, status: Status, disk: D) -> Outcome<D>
    ensures status { result.status ≡ status }
    ensures empty { IsEmpty (gave result) }
    ensures disk { result.disk ≡ disk }
{
    Outcome {
        status,
        history: Vec::new(alloc),
        marks: Vec::new(alloc),
        disk,
    }
}

/// Ends a call that a fault stopped before it ran anything: the fault's line is put. A sink that fails at it changes no status.
pub fn end_with<W: Sink, D>(alloc: Global, sink: &mut W, disk: D, fault: Fault) -> Outcome<D>
    ensures status { result.status ≡ status_by fault }
    ensures unrun { IsUnrun (seen_sink W.held W.faults sink.old sink.new) (gave result) fault }
    ensures disk { result.disk ≡ disk }
    ensures count { W.faults sink.old ≤ W.faults sink.new }
{
    let _ = put_fault(sink, &fault);
    empty_outcome(alloc, status_of(fault), disk)
}
