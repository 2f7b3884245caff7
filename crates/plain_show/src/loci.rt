//! What is shown of a locus.
ghost use Rattle.std.specs.Prelude.{◌≡◌, ◌+◌, ◌≤◌, ◌++◌, OnErr, length};
ghost use Rattle.std.specs.List.{flat_map};
ghost use Rattle.arrayvec.specs.ArrayString.{array_string_len};
ghost use Rattle.edge_disk.specs.Counts.{Rose};
ghost use Rattle.edge_streams.specs.Streams.{Puts};
ghost use Rattle.plain_states.specs.Plains.{locus_of};
ghost use Rattle.line_text.specs.Lines.{HasShortNames};
ghost use Rattle.plain_show.specs.Lines.{condition_word};
ghost use Rattle.plain_show.specs.Show.{call_line, locus_front, locus_line, locus_lines, printed_line, private_line, register_words, walk_line};

use crate::lines::{named_line, push_region, put_caps};
use arrayvec::ArrayString;
use base_types::{Call, Condition, Entity, Private, Walk};
use edge_streams::{Sink, SinkFault};
use line_text::{LINE, Names, push_name_word, push_number_word, push_word, put_line};
use plain_states::PlainLocus;

fn word_of(condition: Condition) -> &'static str
    ensures word { result.now ≡ condition_word condition }
    ensures short { length result.now ≤ 7 }
{
    match condition {
        Condition::Running => "running",
        Condition::Stopped => "stopped",
        Condition::Halted => "halted",
    }
}

/// The first line of a locus up to its registers.
fn front_of<N: Names>(names: &N, entity: Entity, l: &PlainLocus) -> ArrayString<LINE>
    requires short { HasShortNames (N.atlas names.now) }
    ensures bytes { result.bytes ≡ locus_front (N.atlas names.now) entity (locus_of l.now) }
    ensures fits { array_string_len result ≤ 109 }
{
    let mut line = named_line(names, "locus", entity);
    push_name_word(names, l.host, &mut line);
    push_number_word(l.place as u64, &mut line);
    push_word(word_of(l.condition), &mut line);
    push_number_word(l.every as u64, &mut line);
    line
}

/// Appends each register's value behind a blank.
fn push_registers(registers: &[u64], line: &mut ArrayString<LINE>)
    requires few { length registers.now ≤ 8 }
    requires room { array_string_len line.old + 168 ≤ LINE }
    ensures bytes { line.new.bytes ≡ line.old.bytes ++ register_words registers.now }
    ensures longer { array_string_len line.new ≤ array_string_len line.old + 168 }
{
    for register in registers {
        push_number_word(*register, line);
    }
}

/// Puts the first line of a locus.
fn put_head<W: Sink, N: Names>(
    sink: &mut W,
    names: &N,
    entity: Entity,
    l: &PlainLocus,
) -> Result<(), SinkFault>
    requires short { HasShortNames (N.atlas names.now) }
    ensures bytes { Puts (W.held sink.old) (W.held sink.new) result (locus_line (N.atlas names.now) entity (locus_of l.now)) }
    ensures count { W.faults sink.old ≤ W.faults sink.new }
    ensures cause { OnErr result (Rose (W.faults sink.old) (W.faults sink.new)) }
{
    let mut line = front_of(names, entity, l);
    push_registers(&l.registers, &mut line);
    put_line(sink, &mut line)
}

/// Puts how many values were printed, if there are some.
fn put_printed<W: Sink, N: Names>(
    sink: &mut W,
    names: &N,
    entity: Entity,
    printed: u64,
) -> Result<(), SinkFault>
    requires short { HasShortNames (N.atlas names.now) }
    ensures bytes { Puts (W.held sink.old) (W.held sink.new) result (printed_line (N.atlas names.now) entity printed) }
    ensures count { W.faults sink.old ≤ W.faults sink.new }
    ensures cause { OnErr result (Rose (W.faults sink.old) (W.faults sink.new)) }
{
    if printed == 0 {
        return Ok(());
    }
    let mut line = named_line(names, "printed", entity);
    push_number_word(printed, &mut line);
    put_line(sink, &mut line)
}

/// Puts the line of a private region.
fn put_private<W: Sink, N: Names>(
    sink: &mut W,
    names: &N,
    entity: Entity,
    p: &Private,
) -> Result<(), SinkFault>
    requires short { HasShortNames (N.atlas names.now) }
    ensures bytes { Puts (W.held sink.old) (W.held sink.new) result (private_line (N.atlas names.now) entity p.now) }
    ensures count { W.faults sink.old ≤ W.faults sink.new }
    ensures cause { OnErr result (Rose (W.faults sink.old) (W.faults sink.new)) }
{
    let mut line = named_line(names, "private", entity);
    push_name_word(names, p.made, &mut line);
    push_region(names, &p.region, &mut line);
    put_line(sink, &mut line)
}

/// Puts a line for each private region.
#[tactic(auto, using(edge_streams::proofs::Streams::puts))]
fn put_privates<W: Sink, N: Names>(
    sink: &mut W,
    names: &N,
    entity: Entity,
    l: &PlainLocus,
) -> Result<(), SinkFault>
    requires short { HasShortNames (N.atlas names.now) }
    ensures bytes { Puts (W.held sink.old) (W.held sink.new) result (flat_map (private_line (N.atlas names.now) entity) l.now.privates.items) }
    ensures count { W.faults sink.old ≤ W.faults sink.new }
    ensures cause { OnErr result (Rose (W.faults sink.old) (W.faults sink.new)) }
{
    for p in &l.privates {
        put_private(sink, names, entity, p)?;
    }
    Ok(())
}

/// Puts the line of a call.
fn put_call<W: Sink, N: Names>(
    sink: &mut W,
    names: &N,
    entity: Entity,
    call: &Call,
) -> Result<(), SinkFault>
    requires short { HasShortNames (N.atlas names.now) }
    ensures bytes { Puts (W.held sink.old) (W.held sink.new) result (call_line (N.atlas names.now) entity call.now) }
    ensures count { W.faults sink.old ≤ W.faults sink.new }
    ensures cause { OnErr result (Rose (W.faults sink.old) (W.faults sink.new)) }
{
    let mut line = named_line(names, "call", entity);
    push_name_word(names, call.container, &mut line);
    push_number_word(call.place as u64, &mut line);
    put_line(sink, &mut line)
}

/// Puts a line for each call, the oldest first.
#[tactic(auto, using(edge_streams::proofs::Streams::puts))]
fn put_chain<W: Sink, N: Names>(
    sink: &mut W,
    names: &N,
    entity: Entity,
    l: &PlainLocus,
) -> Result<(), SinkFault>
    requires short { HasShortNames (N.atlas names.now) }
    ensures bytes { Puts (W.held sink.old) (W.held sink.new) result (flat_map (call_line (N.atlas names.now) entity) l.now.chain.items) }
    ensures count { W.faults sink.old ≤ W.faults sink.new }
    ensures cause { OnErr result (Rose (W.faults sink.old) (W.faults sink.new)) }
{
    for call in &l.chain {
        put_call(sink, names, entity, call)?;
    }
    Ok(())
}

/// Puts the line of a begun walk, if there is one.
fn put_walk<W: Sink, N: Names>(
    sink: &mut W,
    names: &N,
    entity: Entity,
    walk: Option<Walk>,
) -> Result<(), SinkFault>
    requires short { HasShortNames (N.atlas names.now) }
    ensures bytes { Puts (W.held sink.old) (W.held sink.new) result (walk_line (N.atlas names.now) entity walk) }
    ensures count { W.faults sink.old ≤ W.faults sink.new }
    ensures cause { OnErr result (Rose (W.faults sink.old) (W.faults sink.new)) }
{
    let Some(walk) = walk else {
        return Ok(());
    };
    let mut line = named_line(names, "walk", entity);
    push_name_word(names, walk.at, &mut line);
    push_number_word(walk.address, &mut line);
    push_number_word(walk.hops as u64, &mut line);
    put_line(sink, &mut line)
}

/// Puts the lines of a locus.
pub fn put_locus<W: Sink, N: Names>(
    sink: &mut W,
    names: &N,
    entity: Entity,
    l: &PlainLocus,
) -> Result<(), SinkFault>
    requires short { HasShortNames (N.atlas names.now) }
    ensures bytes { Puts (W.held sink.old) (W.held sink.new) result (locus_lines (N.atlas names.now) entity (locus_of l.now)) }
    ensures count { W.faults sink.old ≤ W.faults sink.new }
    ensures cause { OnErr result (Rose (W.faults sink.old) (W.faults sink.new)) }
{
    put_head(sink, names, entity, l)?;
    put_printed(sink, names, entity, l.printed)?;
    put_privates(sink, names, entity, l)?;
    put_chain(sink, names, entity, l)?;
    put_walk(sink, names, entity, l.walk)?;
    put_caps(sink, names, entity, &l.caps)
}
