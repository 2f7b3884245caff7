//! What is shown of a state.
ghost use Rattle.std.specs.Prelude.{◌≡◌, ◌<◌, ◌≤◌, ◌^◌, ◌+◌, ℕ, OnErr, length};
ghost use Rattle.std.specs.List.{flat_map};
ghost use Rattle.base_types.specs.Edges.{upto};
ghost use Rattle.edge_disk.specs.Counts.{Rose};
ghost use Rattle.edge_streams.specs.Streams.{Puts};
ghost use Rattle.plain_states.specs.model_kernel.Soundness.{IsSound};
ghost use Rattle.plain_states.specs.model_kernel.State.{Supply, ContainerCell, LocusCell};
ghost use Rattle.plain_states.specs.Plains.{atlas_of, cells_of, container_of, locus_of};
ghost use Rattle.line_text.specs.Lines.{HasShortNames};
ghost use Rattle.plain_show.specs.Show.{entity_lines, shown};

use crate::containers::put_container;
use crate::loci::put_locus;
use crate::names::PlainNames;
use base_types::{Entity, FIRST_LOCUS};
use edge_streams::{Sink, SinkFault};
use plain_states::{Plain, PlainContainer, PlainLocus};

/// The names of a state's atlas.
fn names_of(state: &Plain) -> PlainNames<'_>
    ghost s: { Supply }
    requires sound { IsSound (cells_of s state.now) }
    ensures names { result.atlas.now ≡ state.now.atlas }
    ensures short { HasShortNames (atlas_of result.atlas.now) }
{
    PlainNames {
        atlas: &state.atlas,
    }
}

/// The container with the name at this place.
fn container_at(state: &Plain, place: usize) -> &PlainContainer
    ghost s: { Supply }
    requires sound { IsSound (cells_of s state.now) }
    requires named { place < length state.now.atlas.containers.items }
    ensures cell { cells_of s state.now (place + 1) ≡ ContainerCell (container_of s result.now) }
    ensures size { result.now.pages ≤ 256 }
{
    &state.containers[place]
}

/// The locus with the name at this place.
fn locus_at(state: &Plain, place: usize) -> &PlainLocus
    ghost s: { Supply }
    requires sound { IsSound (cells_of s state.now) }
    requires named { place < length state.now.atlas.loci.items }
    ensures { cells_of s state.now (place + 41) ≡ LocusCell (locus_of result.now) }
{
    &state.loci[place]
}

/// Puts the lines of the container at this place of the list.
fn put_container_at<W: Sink, S: Fn(u64, u32, u16) -> u64>(
    sink: &mut W,
    state: &Plain,
    supply: &S,
    place: usize,
) -> Result<(), SinkFault>
    ghost s: { Supply }
    requires callable { (t p a : ℕ) → t < 2 ^ 64 → p < 256 → a < 128 → S.pre supply.now t p a }
    requires answers { (t p a r : ℕ) → t < 2 ^ 64 → p < 256 → a < 128 → S.post supply.now t p a r → r ≡ s t p a }
    requires sound { IsSound (cells_of s state.now) }
    requires named { place < length state.now.atlas.containers.items }
    ensures bytes { Puts (W.held sink.old) (W.held sink.new) result (entity_lines s (atlas_of state.now.atlas) (cells_of s state.now) (place + 1)) }
    ensures count { W.faults sink.old ≤ W.faults sink.new }
    ensures cause { OnErr result (Rose (W.faults sink.old) (W.faults sink.new)) }
{
    let names = names_of(state);
    let c = container_at(state, place);
    match Entity::new(place as u8 + 1) {
        Some(entity) => put_container(sink, &names, entity, c, supply),
        None => unreachable!(),
    }
}

/// Puts the lines of each container, by number.
fn put_containers<W: Sink, S: Fn(u64, u32, u16) -> u64>(
    sink: &mut W,
    state: &Plain,
    supply: &S,
) -> Result<(), SinkFault>
    ghost s: { Supply }
    requires callable { (t p a : ℕ) → t < 2 ^ 64 → p < 256 → a < 128 → S.pre supply.now t p a }
    requires answers { (t p a r : ℕ) → t < 2 ^ 64 → p < 256 → a < 128 → S.post supply.now t p a r → r ≡ s t p a }
    requires sound { IsSound (cells_of s state.now) }
    ensures bytes { Puts (W.held sink.old) (W.held sink.new) result (flat_map (λ i. entity_lines s (atlas_of state.now.atlas) (cells_of s state.now) (i + 1)) (upto (length state.now.atlas.containers.items))) }
    ensures count { W.faults sink.old ≤ W.faults sink.new }
    ensures cause { OnErr result (Rose (W.faults sink.old) (W.faults sink.new)) }
{
    for place in 0..state.atlas.containers.len() {
        put_container_at(sink, state, supply, place)?;
    }
    Ok(())
}

/// Puts the lines of the locus at this place of the list.
fn put_locus_at<W: Sink>(sink: &mut W, state: &Plain, place: usize) -> Result<(), SinkFault>
    ghost s: { Supply }
    requires sound { IsSound (cells_of s state.now) }
    requires named { place < length state.now.atlas.loci.items }
    ensures bytes { Puts (W.held sink.old) (W.held sink.new) result (entity_lines s (atlas_of state.now.atlas) (cells_of s state.now) (place + 41)) }
    ensures count { W.faults sink.old ≤ W.faults sink.new }
    ensures cause { OnErr result (Rose (W.faults sink.old) (W.faults sink.new)) }
{
    let names = names_of(state);
    let l = locus_at(state, place);
    match Entity::new(place as u8 + FIRST_LOCUS) {
        Some(entity) => put_locus(sink, &names, entity, l),
        None => unreachable!(),
    }
}

/// Puts the lines of each locus, by number.
fn put_loci<W: Sink>(sink: &mut W, state: &Plain) -> Result<(), SinkFault>
    ghost s: { Supply }
    requires sound { IsSound (cells_of s state.now) }
    ensures bytes { Puts (W.held sink.old) (W.held sink.new) result (flat_map (λ i. entity_lines s (atlas_of state.now.atlas) (cells_of s state.now) (i + 41)) (upto (length state.now.atlas.loci.items))) }
    ensures count { W.faults sink.old ≤ W.faults sink.new }
    ensures cause { OnErr result (Rose (W.faults sink.old) (W.faults sink.new)) }
{
    for place in 0..state.atlas.loci.len() {
        put_locus_at(sink, state, place)?;
    }
    Ok(())
}

/// Puts the lines of each container, by number, and then those of each locus, each line in one call. It takes no memory, and asks
/// the supplier about each word that is kept. After a fault a front of the text was put.
pub fn write_show<W: Sink, S: Fn(u64, u32, u16) -> u64>(
    state: &Plain,
    supply: &S,
    sink: &mut W,
) -> Result<(), SinkFault>
    ghost s: { Supply }
    requires callable { (t p a : ℕ) → t < 2 ^ 64 → p < 256 → a < 128 → S.pre supply.now t p a }
    requires answers { (t p a r : ℕ) → t < 2 ^ 64 → p < 256 → a < 128 → S.post supply.now t p a r → r ≡ s t p a }
    requires sound { IsSound (cells_of s state.now) }
    ensures bytes { Puts (W.held sink.old) (W.held sink.new) result (shown s (cells_of s state.now)) }
    ensures count { W.faults sink.old ≤ W.faults sink.new }
    ensures cause { OnErr result (Rose (W.faults sink.old) (W.faults sink.new)) }
{
    put_containers(sink, state, supply)?;
    put_loci(sink, state)
}
