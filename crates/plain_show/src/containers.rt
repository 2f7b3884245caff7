//! What is shown of a container.
ghost use Rattle.std.specs.Prelude.{◌≡◌, ◌<◌, ◌≤◌, ◌^◌, ◌*◌, ℕ, OnErr};
ghost use Rattle.std.specs.List.{flat_map};
ghost use Rattle.base_types.specs.Edges.{upto};
ghost use Rattle.edge_disk.specs.Counts.{Rose};
ghost use Rattle.edge_streams.specs.Streams.{Puts};
ghost use Rattle.plain_states.specs.model_kernel.State.{Supply};
ghost use Rattle.plain_states.specs.Plains.{container_of};
ghost use Rattle.line_text.specs.Lines.{HasShortNames};
ghost use Rattle.plain_show.specs.Show.{changed_word, container_line, container_lines, region_line, word_line, word_line_by};

use crate::lines::{named_line, push_optional, push_region, put_caps};
use base_types::{Entity, PAGE_WORDS, Region};
use edge_streams::{Sink, SinkFault};
use line_text::{Names, push_number_word, put_line};
use plain_states::PlainContainer;

/// Puts the first line of a container.
fn put_head<W: Sink, N: Names>(
    sink: &mut W,
    names: &N,
    entity: Entity,
    c: &PlainContainer,
) -> Result<(), SinkFault>
    requires short { HasShortNames (N.atlas names.now) }
    ensures bytes { (s : Supply) → Puts (W.held sink.old) (W.held sink.new) result (container_line (N.atlas names.now) entity (container_of s c.now)) }
    ensures count { W.faults sink.old ≤ W.faults sink.new }
    ensures cause { OnErr result (Rose (W.faults sink.old) (W.faults sink.new)) }
{
    let mut line = named_line(names, "container", entity);
    push_number_word(c.pages as u64, &mut line);
    push_number_word(c.tag, &mut line);
    push_number_word(c.every as u64, &mut line);
    push_optional(c.entry, &mut line);
    put_line(sink, &mut line)
}

/// Puts the line of a region.
#[tactic(auto, using(edge_streams::proofs::Streams::puts))]
fn put_region_line<W: Sink, N: Names>(
    sink: &mut W,
    names: &N,
    entity: Entity,
    region: &Region,
) -> Result<(), SinkFault>
    requires short { HasShortNames (N.atlas names.now) }
    ensures bytes { Puts (W.held sink.old) (W.held sink.new) result (region_line (N.atlas names.now) entity region.now) }
    ensures count { W.faults sink.old ≤ W.faults sink.new }
    ensures cause { OnErr result (Rose (W.faults sink.old) (W.faults sink.new)) }
{
    let mut line = named_line(names, "region", entity);
    push_region(names, region, &mut line);
    put_line(sink, &mut line)
}

/// Puts a line for each region.
#[tactic(auto, using(edge_streams::proofs::Streams::puts))]
fn put_regions<W: Sink, N: Names>(
    sink: &mut W,
    names: &N,
    entity: Entity,
    c: &PlainContainer,
) -> Result<(), SinkFault>
    requires short { HasShortNames (N.atlas names.now) }
    ensures bytes { Puts (W.held sink.old) (W.held sink.new) result (flat_map (region_line (N.atlas names.now) entity) c.now.regions.items) }
    ensures count { W.faults sink.old ≤ W.faults sink.new }
    ensures cause { OnErr result (Rose (W.faults sink.old) (W.faults sink.new)) }
{
    for region in &c.regions {
        put_region_line(sink, names, entity, region)?;
    }
    Ok(())
}

/// The word that was stored at an address, if it differs from the supplier's.
fn changed_word<S: Fn(u64, u32, u16) -> u64>(
    c: &PlainContainer,
    supply: &S,
    address: u64,
) -> Option<u64>
    ghost s: { Supply }
    requires callable { (t p a : ℕ) → t < 2 ^ 64 → p < 256 → a < 128 → S.pre supply.now t p a }
    requires answers { (t p a r : ℕ) → t < 2 ^ 64 → p < 256 → a < 128 → S.post supply.now t p a r → r ≡ s t p a }
    requires address { address < 128 * 256 }
    ensures { result ≡ changed_word s (container_of s c.now) address }
{
    let word = *c.words.get(&address)?;
    let supplied = supply(
        c.tag,
        (address / PAGE_WORDS) as u32,
        (address % PAGE_WORDS) as u16,
    );
    if word == supplied { None } else { Some(word) }
}

/// Puts the line of a word, if it differs from the supplier's.
fn put_word_line<W: Sink, N: Names>(
    sink: &mut W,
    names: &N,
    entity: Entity,
    address: u64,
    word: Option<u64>,
) -> Result<(), SinkFault>
    requires short { HasShortNames (N.atlas names.now) }
    ensures bytes { Puts (W.held sink.old) (W.held sink.new) result (word_line_by (N.atlas names.now) entity address word) }
    ensures count { W.faults sink.old ≤ W.faults sink.new }
    ensures cause { OnErr result (Rose (W.faults sink.old) (W.faults sink.new)) }
{
    let Some(word) = word else {
        return Ok(());
    };
    let mut line = named_line(names, "word", entity);
    push_number_word(address, &mut line);
    push_number_word(word, &mut line);
    put_line(sink, &mut line)
}

/// Puts a line for each word that differs from the supplier's.
#[tactic(auto, using(line_text::proofs::Puts::pieces))]
fn put_words<W: Sink, N: Names, S: Fn(u64, u32, u16) -> u64>(
    sink: &mut W,
    names: &N,
    entity: Entity,
    c: &PlainContainer,
    supply: &S,
) -> Result<(), SinkFault>
    ghost s: { Supply }
    requires short { HasShortNames (N.atlas names.now) }
    requires callable { (t p a : ℕ) → t < 2 ^ 64 → p < 256 → a < 128 → S.pre supply.now t p a }
    requires answers { (t p a r : ℕ) → t < 2 ^ 64 → p < 256 → a < 128 → S.post supply.now t p a r → r ≡ s t p a }
    requires size { c.now.pages ≤ 256 }
    ensures bytes { Puts (W.held sink.old) (W.held sink.new) result (flat_map (word_line s (N.atlas names.now) entity (container_of s c.now)) (upto (128 * c.now.pages))) }
    ensures count { W.faults sink.old ≤ W.faults sink.new }
    ensures cause { OnErr result (Rose (W.faults sink.old) (W.faults sink.new)) }
{
    for address in 0..PAGE_WORDS * c.pages as u64 {
        put_word_line(
            sink,
            names,
            entity,
            address,
            changed_word(c, supply, address),
        )?;
    }
    Ok(())
}

/// Puts the lines of a container.
pub fn put_container<W: Sink, N: Names, S: Fn(u64, u32, u16) -> u64>(
    sink: &mut W,
    names: &N,
    entity: Entity,
    c: &PlainContainer,
    supply: &S,
) -> Result<(), SinkFault>
    ghost s: { Supply }
    requires short { HasShortNames (N.atlas names.now) }
    requires callable { (t p a : ℕ) → t < 2 ^ 64 → p < 256 → a < 128 → S.pre supply.now t p a }
    requires answers { (t p a r : ℕ) → t < 2 ^ 64 → p < 256 → a < 128 → S.post supply.now t p a r → r ≡ s t p a }
    requires size { c.now.pages ≤ 256 }
    ensures bytes { Puts (W.held sink.old) (W.held sink.new) result (container_lines s (N.atlas names.now) entity (container_of s c.now)) }
    ensures count { W.faults sink.old ≤ W.faults sink.new }
    ensures cause { OnErr result (Rose (W.faults sink.old) (W.faults sink.new)) }
{
    put_head(sink, names, entity, c)?;
    put_regions(sink, names, entity, c)?;
    put_caps(sink, names, entity, &c.caps)?;
    put_words(sink, names, entity, c, supply)
}
