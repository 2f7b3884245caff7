//! Words and numbers.
ghost use Rattle.std.specs.Prelude.{◌≡◌, ◌+◌, ◌<◌, ◌≤◌, ◌++◌, OnErr, decimal, length};
ghost use Rattle.arrayvec.specs.ArrayString.{array_string_len};
ghost use Rattle.edge_disk.specs.Counts.{Rose};
ghost use Rattle.edge_streams.specs.Streams.{Puts};
ghost use Rattle.line_text.specs.Lines.{line_end, word};

use arrayvec::ArrayString;
use edge_streams::{Sink, SinkFault};
use itoa::Buffer;

/// A length that no line exceeds, its end included.
pub const LINE: usize = 300;

/// Appends a word behind a blank.
#[tactic(auto, unfolding(crate::specs::Lines::word))]
pub fn push_word(text: &str, line: &mut ArrayString<LINE>)
    requires room { array_string_len line.old + 1 + length text.now ≤ LINE }
    ensures bytes { line.new.bytes ≡ line.old.bytes ++ word text.now }
    ensures longer { array_string_len line.new ≡ array_string_len line.old + 1 + length text.now }
{
    line.push_str(" ");
    line.push_str(text);
}

/// Appends a number, of at most 20 digits.
pub fn push_number(number: u64, line: &mut ArrayString<LINE>)
    requires room { array_string_len line.old + 20 ≤ LINE }
    ensures bytes { line.new.bytes ≡ line.old.bytes ++ decimal number }
    ensures longer { array_string_len line.new ≤ array_string_len line.old + 20 }
{
    let mut digits = Buffer::new();
    line.push_str(digits.format(number));
}

/// Appends a number behind a blank.
#[tactic(auto, using(crate::proofs::Blanks::behind_blank))]
pub fn push_number_word(number: u64, line: &mut ArrayString<LINE>)
    requires room { array_string_len line.old + 21 ≤ LINE }
    ensures bytes { line.new.bytes ≡ line.old.bytes ++ word (decimal number) }
    ensures longer { array_string_len line.new ≤ array_string_len line.old + 21 }
{
    line.push_str(" ");
    push_number(number, line);
}

/// Puts a line with its end, in one call.
pub fn put_line<W: Sink>(sink: &mut W, line: &mut ArrayString<LINE>) -> Result<(), SinkFault>
    requires room { array_string_len line.old < LINE }
    ensures bytes { Puts (W.held sink.old) (W.held sink.new) result (line.old.bytes ++ line_end) }
    ensures count { W.faults sink.old ≤ W.faults sink.new }
    ensures cause { OnErr result (Rose (W.faults sink.old) (W.faults sink.new)) }
{
    line.push_str("\n");
    sink.put(line.as_str().as_bytes())
}
