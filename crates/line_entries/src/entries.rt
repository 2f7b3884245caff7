//! The line of an entry, and the trace of a history.
ghost use Rattle.std.specs.Prelude.{◌≡◌, ◌+◌, ◌≤◌, ◌++◌, OnErr, length, take};
ghost use Rattle.arrayvec.specs.ArrayString.{array_string_len};
ghost use Rattle.edge_disk.specs.Counts.{Rose};
ghost use Rattle.edge_streams.specs.Streams.{Puts};
ghost use Rattle.line_text.specs.Lines.{HasShortNames, word};
ghost use Rattle.line_entries.specs.Entries.{answer_text, details, entry_line, entry_text, event_word, touches_text, trace_of};

use crate::touches::{push_answer, push_touches};
use arrayvec::ArrayString;
use base_types::{Answer, Entry, Event};
use edge_streams::{Sink, SinkFault};
use line_text::{LINE, Names, push_name_word, push_number_word, put_line};

/// The touches of an entry that are written: all, which are three at most.
const MOST_TOUCHES: usize = 3;

fn event_word(event: Event) -> &'static str
    ensures word { result.now ≡ event_word event }
    ensures short { length result.now ≤ 6 }
{
    match event {
        Event::Birth => "birth",
        Event::Step => "step",
        Event::Snap => "snap",
        Event::Stable => "stable",
        Event::Tried => "tried",
    }
}

/// Appends what an entry touched, behind a blank.
#[tactic(auto, using(line_text::proofs::Blanks::behind_blank))]
fn push_touched<N: Names>(names: &N, entry: &Entry, line: &mut ArrayString<LINE>)
    requires short { HasShortNames (N.atlas names.now) }
    requires room { array_string_len line.old + 138 ≤ LINE }
    ensures bytes { line.new.bytes ≡ line.old.bytes ++ word (touches_text (N.atlas names.now) (take 3 entry.now.touched)) }
    ensures longer { array_string_len line.new ≤ array_string_len line.old + 138 }
{
    let touched = entry.touched;
    let touches = touched.as_slice();
    line.push_str(" ");
    push_touches(names, &touches[..touches.len().min(MOST_TOUCHES)], line);
}

/// Appends an answer behind a blank.
#[tactic(auto, using(line_text::proofs::Blanks::behind_blank))]
fn push_answered(answer: Answer, line: &mut ArrayString<LINE>)
    requires room { array_string_len line.old + 27 ≤ LINE }
    ensures bytes { line.new.bytes ≡ line.old.bytes ++ word (answer_text answer) }
    ensures longer { array_string_len line.new ≤ array_string_len line.old + 27 }
{
    line.push_str(" ");
    push_answer(answer, line);
}

/// Appends what stands behind the event and the actor.
fn push_details<N: Names>(names: &N, entry: &Entry, line: &mut ArrayString<LINE>)
    requires short { HasShortNames (N.atlas names.now) }
    requires room { array_string_len line.old + 165 ≤ LINE }
    ensures bytes { line.new.bytes ≡ line.old.bytes ++ details (N.atlas names.now) entry.now entry.now.event }
    ensures longer { array_string_len line.new ≤ array_string_len line.old + 165 }
{
    match entry.event {
        Event::Birth => push_touched(names, entry, line),
        Event::Step => {
            push_touched(names, entry, line);
            push_answered(entry.answer, line);
        }
        Event::Snap | Event::Tried => push_number_word(entry.version, line),
        Event::Stable => {}
    }
}

/// Writes the line of an entry, without its end, in place of what `line` held. It has at most 196 bytes.
#[tactic(auto, unfolding(crate::specs::Entries::entry_text))]
pub fn write_entry<N: Names>(names: &N, entry: &Entry, line: &mut ArrayString<LINE>)
    requires short { HasShortNames (N.atlas names.now) }
    ensures bytes { line.new.bytes ≡ entry_text (N.atlas names.now) entry.now }
    ensures fits { array_string_len line.new ≤ 196 }
{
    line.clear();
    line.push_str(event_word(entry.event));
    push_name_word(names, entry.actor, line);
    push_details(names, entry, line);
}

/// Puts the line of an entry, in one call.
#[tactic(auto, unfolding(crate::specs::Entries::entry_line))]
fn put_entry<W: Sink, N: Names>(sink: &mut W, names: &N, entry: &Entry) -> Result<(), SinkFault>
    requires short { HasShortNames (N.atlas names.now) }
    ensures bytes { Puts (W.held sink.old) (W.held sink.new) result (entry_line (N.atlas names.now) entry.now) }
    ensures count { W.faults sink.old ≤ W.faults sink.new }
    ensures cause { OnErr result (Rose (W.faults sink.old) (W.faults sink.new)) }
{
    let mut line = ArrayString::new();
    write_entry(names, entry, &mut line);
    put_line(sink, &mut line)
}

/// Puts the trace of a history: a line for each entry, each in one call. After a fault a front of the trace was put.
#[tactic(auto, using(edge_streams::proofs::Streams::puts))]
pub fn put_trace<W: Sink, N: Names>(
    sink: &mut W,
    names: &N,
    entries: &[Entry],
) -> Result<(), SinkFault>
    requires short { HasShortNames (N.atlas names.now) }
    ensures bytes { Puts (W.held sink.old) (W.held sink.new) result (trace_of (N.atlas names.now) entries.now) }
    ensures count { W.faults sink.old ≤ W.faults sink.new }
    ensures cause { OnErr result (Rose (W.faults sink.old) (W.faults sink.new)) }
{
    for entry in entries {
        put_entry(sink, names, entry)?;
    }
    Ok(())
}
