//! Parts of lines that both kinds of entities show.
ghost use Rattle.std.specs.Prelude.{◌≡◌, ◌+◌, ◌≤◌, ◌++◌, OnErr, length};
ghost use Rattle.arrayvec.specs.ArrayString.{array_string_len};
ghost use Rattle.edge_disk.specs.Counts.{Rose};
ghost use Rattle.edge_streams.specs.Streams.{Puts};
ghost use Rattle.base_instructions.specs.Spelling.{rights};
ghost use Rattle.line_text.specs.Lines.{HasShortNames, word};
ghost use Rattle.plain_show.specs.Lines.{named, optional};
ghost use Rattle.plain_show.specs.Show.{cap_line, cap_lines, region_words};

use arrayvec::ArrayString;
use base_instructions::write_rights;
use base_types::{Cap, Entity, Region, Rights};
use edge_streams::{Sink, SinkFault};
use line_text::{LINE, Names, push_name_word, push_number_word, push_word, put_line};

/// A line with its first word and the name of the entity that it is about.
#[tactic(auto, unfolding(crate::specs::Lines::named))]
pub fn named_line<N: Names>(names: &N, first: &str, entity: Entity) -> ArrayString<LINE>
    requires short { HasShortNames (N.atlas names.now) }
    requires first { length first.now ≤ 9 }
    ensures bytes { result.bytes ≡ named (N.atlas names.now) first.now entity }
    ensures fits { array_string_len result ≤ 34 }
{
    let mut line = ArrayString::new();
    line.push_str(first);
    push_name_word(names, entity, &mut line);
    line
}

/// Appends a number or a dash behind a blank.
pub fn push_optional(number: Option<u8>, line: &mut ArrayString<LINE>)
    requires room { array_string_len line.old + 21 ≤ LINE }
    ensures bytes { line.new.bytes ≡ line.old.bytes ++ word (optional number) }
    ensures longer { array_string_len line.new ≤ array_string_len line.old + 21 }
{
    match number {
        Some(number) => push_number_word(number as u64, line),
        None => push_word("-", line),
    }
}

/// Appends rights behind a blank.
#[tactic(auto, using(crate::proofs::Shorts::short_rights))]
fn push_rights(set: Rights, line: &mut ArrayString<LINE>)
    requires room { array_string_len line.old + 9 ≤ LINE }
    ensures bytes { line.new.bytes ≡ line.old.bytes ++ word (rights set.0) }
    ensures longer { array_string_len line.new ≤ array_string_len line.old + 9 }
{
    let mut letters = ArrayString::new();
    write_rights(set, &mut letters);
    push_word(letters.as_str(), line);
}

/// Appends a region: at which page, onto which container from which page, how many pages, and the access.
pub fn push_region<N: Names>(names: &N, region: &Region, line: &mut ArrayString<LINE>)
    requires short { HasShortNames (N.atlas names.now) }
    requires room { array_string_len line.old + 97 ≤ LINE }
    ensures bytes { line.new.bytes ≡ line.old.bytes ++ region_words (N.atlas names.now) region.now }
    ensures longer { array_string_len line.new ≤ array_string_len line.old + 97 }
{
    push_number_word(region.at as u64, line);
    push_name_word(names, region.target, line);
    push_number_word(region.from as u64, line);
    push_number_word(region.count as u64, line);
    push_rights(region.rights, line);
}

/// Puts the line of a capability, if the slot has one.
fn put_cap<W: Sink, N: Names>(
    sink: &mut W,
    names: &N,
    entity: Entity,
    slot: usize,
    cap: &Option<Cap>,
) -> Result<(), SinkFault>
    requires short { HasShortNames (N.atlas names.now) }
    ensures bytes { Puts (W.held sink.old) (W.held sink.new) result (cap_line (N.atlas names.now) entity slot cap.now) }
    ensures count { W.faults sink.old ≤ W.faults sink.new }
    ensures cause { OnErr result (Rose (W.faults sink.old) (W.faults sink.new)) }
{
    let Some(cap) = cap else {
        return Ok(());
    };
    let mut line = named_line(names, "cap", entity);
    push_number_word(slot as u64, &mut line);
    push_name_word(names, cap.entity, &mut line);
    push_rights(cap.rights, &mut line);
    put_line(sink, &mut line)
}

/// Puts a line for each capability.
pub fn put_caps<W: Sink, N: Names>(
    sink: &mut W,
    names: &N,
    entity: Entity,
    caps: &[Option<Cap>],
) -> Result<(), SinkFault>
    requires short { HasShortNames (N.atlas names.now) }
    ensures bytes { Puts (W.held sink.old) (W.held sink.new) result (cap_lines (N.atlas names.now) entity caps.now) }
    ensures count { W.faults sink.old ≤ W.faults sink.new }
    ensures cause { OnErr result (Rose (W.faults sink.old) (W.faults sink.new)) }
{
    for (slot, cap) in caps.iter().enumerate() {
        put_cap(sink, names, entity, slot, cap)?;
    }
    Ok(())
}
