//! What an entry touched, and what it answered.
ghost use Rattle.std.specs.Prelude.{◌≡◌, ◌+◌, ◌<◌, ◌≤◌, ◌++◌, decimal, length};
ghost use Rattle.arrayvec.specs.ArrayString.{array_string_len};
ghost use Rattle.line_text.specs.Lines.{HasShortNames, word};
ghost use Rattle.line_entries.specs.Entries.{answer_text, touch_text, touches_text};

use arrayvec::ArrayString;
use base_types::{Answer, Touch};
use line_text::{LINE, Names, push_name, push_number, push_number_word};

/// Appends an entity's name and version.
#[tactic(auto, unfolding(crate::specs::Entries::touch_text))]
fn push_touch<N: Names>(names: &N, touch: &Touch, line: &mut ArrayString<LINE>)
    requires short { HasShortNames (N.atlas names.now) }
    requires room { array_string_len line.old + 45 ≤ LINE }
    ensures bytes { line.new.bytes ≡ line.old.bytes ++ touch_text (N.atlas names.now) touch.now }
    ensures longer { array_string_len line.new ≤ array_string_len line.old + 45 }
{
    push_name(names, touch.entity, line);
    line.push_str(if touch.wrote { ":" } else { "=" });
    push_number(touch.version, line);
}

/// Appends up to three touches, with commas between them.
#[tactic(auto, unfolding(crate::specs::Entries::touches_text))]
pub fn push_touches<N: Names>(names: &N, touches: &[Touch], line: &mut ArrayString<LINE>)
    requires short { HasShortNames (N.atlas names.now) }
    requires few { length touches.now ≤ 3 }
    requires room { array_string_len line.old + 137 ≤ LINE }
    ensures bytes { line.new.bytes ≡ line.old.bytes ++ touches_text (N.atlas names.now) touches.now }
    ensures longer { array_string_len line.new ≤ array_string_len line.old + 137 }
{
    let Some((first, rest)) = touches.split_first() else {
        return;
    };
    push_touch(names, first, line);
    for touch in rest {
        line.push_str(",");
        push_touch(names, touch, line);
    }
}

/// Appends a word of at most five bytes, and a number behind a blank.
fn push_numbered(text: &str, number: u64, line: &mut ArrayString<LINE>)
    requires short { length text.now ≤ 5 }
    requires room { array_string_len line.old + 26 ≤ LINE }
    ensures bytes { line.new.bytes ≡ line.old.bytes ++ text.now ++ word (decimal number) }
    ensures longer { array_string_len line.new ≤ array_string_len line.old + 26 }
{
    line.push_str(text);
    push_number_word(number, line);
}

/// Appends an answer.
#[tactic(auto, unfolding(crate::specs::Entries::answer_text))]
pub fn push_answer(answer: Answer, line: &mut ArrayString<LINE>)
    requires room { array_string_len line.old + 26 ≤ LINE }
    ensures bytes { line.new.bytes ≡ line.old.bytes ++ answer_text answer }
    ensures longer { array_string_len line.new ≤ array_string_len line.old + 26 }
{
    match answer {
        Answer::Quiet => line.push_str("quiet"),
        Answer::Hop => line.push_str("hop"),
        Answer::Reply(reply) => push_numbered("reply", reply.number(), line),
        Answer::Read(value) => push_numbered("read", value, line),
        Answer::Print(value) => push_numbered("print", value, line),
    }
}
