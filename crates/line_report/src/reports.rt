ghost use Rattle.std.specs.Prelude.{◌≡◌, ◌≤◌, OnErr, length};
ghost use Rattle.edge_disk.specs.Counts.{Rose};
ghost use Rattle.edge_streams.specs.Streams.{Puts};
ghost use Rattle.line_report.specs.Reports.{area_letter, cut_line, cut_lines, log_line, rec_line, rec_lines, report_text, state_word};

use arrayvec::ArrayString;
use base_types::{Cut, Rec};
use edge_streams::{Sink, SinkFault};
use image_blocks::Area;
use line_text::{push_number_word, push_word, put_line};

/// The log of an image, and the cut that its records make.
#[derive(Drop)]
pub struct LogFacts<'a> {
    pub area: Area,
    pub epoch: u64,
    /// In the order of their slots, from 0.
    pub recs: &'a [Rec],
    pub cut: Cut,
}

fn letter_of(area: Area) -> &'static str
    ensures letter { result.now ≡ area_letter area }
    ensures one { length result.now ≡ 1 }
{
    match area {
        Area::A => "A",
        Area::B => "B",
    }
}

/// Whether a record of this version is the chosen one, one below it or one above it.
fn state_of(chosen: u64, version: u64) -> &'static str
    ensures state { result.now ≡ state_word chosen version }
    ensures short { length result.now ≤ 7 }
{
    if version == chosen {
        "chosen"
    } else if version < chosen {
        "earlier"
    } else {
        "later"
    }
}

#[tactic(auto, unfolding(crate::specs::Reports::log_line))]
fn put_log<W: Sink>(sink: &mut W, area: Area, epoch: u64, recs: &[Rec]) -> Result<(), SinkFault>
    ensures bytes { Puts (W.held sink.old) (W.held sink.new) result (log_line area epoch recs.now) }
    ensures count { W.faults sink.old ≤ W.faults sink.new }
    ensures cause { OnErr result (Rose (W.faults sink.old) (W.faults sink.new)) }
{
    let mut line = ArrayString::new();
    line.push_str("area");
    push_word(letter_of(area), &mut line);
    push_word("epoch", &mut line);
    push_number_word(epoch, &mut line);
    push_word("used", &mut line);
    push_number_word(recs.len() as u64, &mut line);
    put_line(sink, &mut line)
}

#[tactic(auto, unfolding(crate::specs::Reports::rec_line))]
fn put_rec<W: Sink>(sink: &mut W, slot: usize, rec: &Rec, cut: &Cut) -> Result<(), SinkFault>
    ensures bytes { Puts (W.held sink.old) (W.held sink.new) result (rec_line cut.now.0 (slot, rec.now)) }
    ensures count { W.faults sink.old ≤ W.faults sink.new }
    ensures cause { OnErr result (Rose (W.faults sink.old) (W.faults sink.new)) }
{
    let number = rec.entity.number();
    let mut line = ArrayString::new();
    line.push_str("rec");
    push_number_word(slot as u64, &mut line);
    push_number_word(number as u64, &mut line);
    push_number_word(rec.version, &mut line);
    push_word(state_of(cut.0[number as usize], rec.version), &mut line);
    put_line(sink, &mut line)
}

#[tactic(auto, unfolding(crate::specs::Reports::cut_line))]
fn put_choice<W: Sink>(sink: &mut W, entity: usize, version: u64) -> Result<(), SinkFault>
    ensures bytes { Puts (W.held sink.old) (W.held sink.new) result (cut_line (entity, version)) }
    ensures count { W.faults sink.old ≤ W.faults sink.new }
    ensures cause { OnErr result (Rose (W.faults sink.old) (W.faults sink.new)) }
{
    if version == 0 {
        return Ok(());
    }
    let mut line = ArrayString::new();
    line.push_str("cut");
    push_number_word(entity as u64, &mut line);
    push_number_word(version, &mut line);
    put_line(sink, &mut line)
}

#[tactic(auto, using(edge_streams::proofs::Streams::puts), unfolding(crate::specs::Reports::rec_lines))]
fn put_recs<W: Sink>(sink: &mut W, recs: &[Rec], cut: &Cut) -> Result<(), SinkFault>
    ensures bytes { Puts (W.held sink.old) (W.held sink.new) result (rec_lines recs.now cut.now.0) }
    ensures count { W.faults sink.old ≤ W.faults sink.new }
    ensures cause { OnErr result (Rose (W.faults sink.old) (W.faults sink.new)) }
{
    for (slot, rec) in recs.iter().enumerate() {
        put_rec(sink, slot, rec, cut)?;
    }
    Ok(())
}

#[tactic(auto, using(edge_streams::proofs::Streams::puts), unfolding(crate::specs::Reports::cut_lines))]
fn put_cut<W: Sink>(sink: &mut W, versions: &[u64]) -> Result<(), SinkFault>
    ensures bytes { Puts (W.held sink.old) (W.held sink.new) result (cut_lines versions.now) }
    ensures count { W.faults sink.old ≤ W.faults sink.new }
    ensures cause { OnErr result (Rose (W.faults sink.old) (W.faults sink.new)) }
{
    for (entity, version) in versions.iter().enumerate() {
        put_choice(sink, entity, *version)?;
    }
    Ok(())
}

/// Puts the report: a line for the log, one for each of its records, and one for each entity of which a version is chosen, each line in
/// one call. It takes no memory. After a fault a front of the text was put.
#[tactic(auto, using(edge_streams::proofs::Streams::puts), unfolding(crate::specs::Reports::report_text))]
pub fn put_report<W: Sink>(sink: &mut W, facts: &LogFacts<'_>) -> Result<(), SinkFault>
    ensures bytes { Puts (W.held sink.old) (W.held sink.new) result (report_text facts.now.area facts.now.epoch facts.now.recs.now facts.now.cut.0) }
    ensures count { W.faults sink.old ≤ W.faults sink.new }
    ensures cause { OnErr result (Rose (W.faults sink.old) (W.faults sink.new)) }
{
    put_log(sink, facts.area, facts.epoch, facts.recs)?;
    put_recs(sink, facts.recs, &facts.cut)?;
    put_cut(sink, &facts.cut.0)?;
    Ok(())
}
