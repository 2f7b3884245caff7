//! The summary of a history.
ghost use Rattle.std.specs.Prelude.{◌≡◌, ◌+◌, ◌%◌, ◌<◌, ◌≤◌, ◌^◌, ◌++◌, OnErr, count_by, decimal, length, sum_by};
ghost use Rattle.arrayvec.specs.ArrayString.{array_string_len};
ghost use Rattle.edge_disk.specs.Counts.{Rose};
ghost use Rattle.line_text.specs.model_kernel.Printing.{is_print};
ghost use Rattle.edge_streams.specs.Streams.{Puts};
ghost use Rattle.line_text.specs.Lines.{word};
ghost use Rattle.line_entries.specs.Summaries.{is_refusal, is_snap, is_stable, summary_line, value_printed};

use arrayvec::ArrayString;
use base_types::{Answer, Entry, Event, Reply};
use edge_streams::{Sink, SinkFault};
use line_text::{LINE, push_number_word, push_word, put_line};

fn is_printed(entry: &Entry) -> bool
    ensures { result ≡ is_print entry.now.answer }
{
    matches!(entry.answer, Answer::Print(_))
}

fn is_refused(entry: &Entry) -> bool
    ensures { result ≡ is_refusal entry.now.answer }
{
    match entry.answer {
        Answer::Reply(reply) => reply != Reply::Ok,
        _ => false,
    }
}

fn is_snapped(entry: &Entry) -> bool
    ensures { result ≡ is_snap entry.now.event }
{
    matches!(entry.event, Event::Snap)
}

fn is_all_stable(entry: &Entry) -> bool
    ensures { result ≡ is_stable entry.now.event }
{
    matches!(entry.event, Event::Stable)
}

fn count_prints(entries: &[Entry]) -> usize
    ensures { result ≡ count_by (λ e. is_print e.answer) entries.now }
{
    entries.iter().filter(|entry| is_printed(entry)).count()
}

fn count_refused(entries: &[Entry]) -> usize
    ensures { result ≡ count_by (λ e. is_refusal e.answer) entries.now }
{
    entries.iter().filter(|entry| is_refused(entry)).count()
}

fn count_snaps(entries: &[Entry]) -> usize
    ensures { result ≡ count_by (λ e. is_snap e.event) entries.now }
{
    entries.iter().filter(|entry| is_snapped(entry)).count()
}

fn count_stables(entries: &[Entry]) -> usize
    ensures { result ≡ count_by (λ e. is_stable e.event) entries.now }
{
    entries.iter().filter(|entry| is_all_stable(entry)).count()
}

fn value_printed(answer: Answer) -> u64
    ensures { result ≡ value_printed answer }
{
    match answer {
        Answer::Print(value) => value,
        _ => 0,
    }
}

/// The printed values, added up modulo 2^64.
fn sum_printed(entries: &[Entry]) -> u64
    ensures { result ≡ sum_by (λ e. value_printed e.answer) entries.now % 2 ^ 64 }
{
    let mut sum: u64 = 0;
    for entry in entries {
        sum = sum.wrapping_add(value_printed(entry.answer));
    }
    sum
}

/// Appends the name of a count, of at most seven bytes, and the count.
fn push_count(name: &str, count: u64, line: &mut ArrayString<LINE>)
    requires short { length name.now ≤ 7 }
    requires room { array_string_len line.old + 29 ≤ LINE }
    ensures bytes { line.new.bytes ≡ line.old.bytes ++ word name.now ++ word (decimal count) }
    ensures longer { array_string_len line.new ≤ array_string_len line.old + 29 }
{
    push_word(name, line);
    push_number_word(count, line);
}

/// Puts the summary of a history, in one call: how many entries, printed values, replies other than Ok, records of single
/// entities and Stable entries there are, and the printed values added up modulo 2^64. It goes over the entries five times.
pub fn put_summary<W: Sink>(sink: &mut W, entries: &[Entry]) -> Result<(), SinkFault>
    ensures bytes { Puts (W.held sink.old) (W.held sink.new) result (summary_line entries.now) }
    ensures count { W.faults sink.old ≤ W.faults sink.new }
    ensures cause { OnErr result (Rose (W.faults sink.old) (W.faults sink.new)) }
{
    let mut line = ArrayString::new();
    line.push_str("entries");
    push_number_word(entries.len() as u64, &mut line);
    push_count("prints", count_prints(entries) as u64, &mut line);
    push_count("refused", count_refused(entries) as u64, &mut line);
    push_count("snaps", count_snaps(entries) as u64, &mut line);
    push_count("stables", count_stables(entries) as u64, &mut line);
    push_count("sum", sum_printed(entries), &mut line);
    put_line(sink, &mut line)
}
