// The line of a verdict.
ghost use Rattle.std.specs.Prelude.{◌≡◌, ◌≤◌, OnErr};
ghost use Rattle.edge_disk.specs.Counts.{Rose};
ghost use Rattle.edge_streams.specs.Streams.{Puts};
ghost use Rattle.command_outcomes.specs.Ends.{IsPut};
ghost use Rattle.command_outcomes.specs.Faults.{wrong_line};
ghost use Rattle.command_outcomes.specs.Seen.{gave, seen_sink};
ghost use Rattle.command_promises.specs.TraceLeaving.{ok_line};
ghost use Rattle.command_check_trace.specs.Verdicts.{EndsWith};

use crate::judging::Verdict;
use arrayvec::ArrayString;
use command_outcomes::{Outcome, Status, empty_outcome, end_with};
use edge_streams::{Sink, SinkFault};
use itoa::Buffer;
use line_text::LINE;
use std::alloc::Global;

/// A length that no text with one number exceeds.
const NUMBER: usize = 48;

/// A length that no line of a trace exceeds with what is told before it.
const WRONG: usize = LINE + 48;

/// The line that tells how many lines a legal trace has.
fn ok_text(lines: u64) -> ArrayString<NUMBER>
    ensures { result.bytes ≡ ok_line lines }
{
    let mut digits = Buffer::new();
    let mut text = ArrayString::new();
    text.push_str("ok ");
    text.push_str(digits.format(lines));
    text.push_str("\n");
    text
}

/// The line of a trace that goes wrong.
fn wrong_text(line: u64, wanted: &ArrayString<LINE>) -> ArrayString<WRONG>
    ensures { result.bytes ≡ wrong_line line wanted.now.bytes }
{
    let mut digits = Buffer::new();
    let mut text = ArrayString::new();
    text.push_str("fault 10 ");
    text.push_str(digits.format(line));
    text.push_str(" want ");
    text.push_str(wanted.as_str());
    text.push_str("\n");
    text
}

/// Puts the line of a legal trace.
fn put_legal<W: Sink>(sink: &mut W, lines: u64) -> Status
    ensures put { IsPut (seen_sink W.held W.faults sink.old sink.new) (ok_line lines) result }
    ensures count { W.faults sink.old ≤ W.faults sink.new }
{
    if sink.put(ok_text(lines).as_str().as_bytes()).is_ok() {
        Status::Done
    } else {
        Status::SinkFault
    }
}

/// Puts the line of a trace that goes wrong.
fn put_wrong<W: Sink>(sink: &mut W, line: u64, wanted: &ArrayString<LINE>) -> Result<(), SinkFault>
    ensures bytes { Puts (W.held sink.old) (W.held sink.new) result (wrong_line line wanted.now.bytes) }
    ensures count { W.faults sink.old ≤ W.faults sink.new }
    ensures cause { OnErr result (Rose (W.faults sink.old) (W.faults sink.new)) }
{
    sink.put(wrong_text(line, wanted).as_str().as_bytes())
}

/// Ends a call with the line of a verdict. A sink that fails at the line of a fault changes no status.
pub(crate) fn end_by<W: Sink, D>(
    alloc: Global,
    sink: &mut W,
    disk: D,
    verdict: Verdict,
) -> Outcome<D>
    ensures ends { EndsWith (seen_sink W.held W.faults sink.old sink.new) (gave result) verdict }
    ensures disk { result.disk ≡ disk }
    ensures count { W.faults sink.old ≤ W.faults sink.new }
{
    match verdict {
        Verdict::Legal(lines) => {
            let status = put_legal(sink, lines);
            empty_outcome(alloc, status, disk)
        }
        Verdict::Wrong { line, want, text } => {
            let _ = put_wrong(sink, line, &text);
            empty_outcome(alloc, Status::TraceWrong { line, want }, disk)
        }
        Verdict::Stopped(fault) => end_with(alloc, sink, disk, fault),
    }
}
