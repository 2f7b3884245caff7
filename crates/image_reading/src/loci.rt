//! The atlas and the loci of an image in ordinary lists.
ghost use Rattle.std.specs.Prelude.{◌≡◌, ◌<◌, ◌≤◌, ◌+◌, ℕ, IfOk, length, slice_get};
ghost use Rattle.plain_states.specs.Born.{AreEdges};
ghost use Rattle.plain_states.specs.Plains.{atlas_of, locus_cell, locus_of};
ghost use Rattle.plain_states.specs.model_kernel.State.{LocusCell, no_atlas};
ghost use Rattle.image_shown_facts.specs.image_fits.Chosen.{part_in, parts_of};
ghost use Rattle.image_shown_facts.specs.States.{IsLocusPart, atlas_by, cell_with};

use base_types::{FIRST_LOCUS, MOST_ENTITIES};
use image_shown_facts::{ChosenEntity, ChosenPart, plain_atlas, plain_locus};
use plain_states::{PlainAtlas, PlainLocus};
use std::alloc::{AllocError, Global};

// An atlas that names nobody.
fn empty_atlas(alloc: Global) -> PlainAtlas
    ensures atlas { atlas_of result ≡ no_atlas }
    ensures edges { AreEdges result.edges.items }
{
    PlainAtlas {
        containers: Vec::new(alloc),
        loci: Vec::new(alloc),
        edges: Vec::new(alloc),
    }
}

// The atlas that is chosen of an entity, or an empty one.
pub(crate) fn atlas_at(
    alloc: Global,
    entity: &Option<ChosenEntity>,
) -> Result<PlainAtlas, AllocError>
    ensures atlas { IfOk result (λ plain. atlas_of plain ≡ atlas_by (part_in entity.now)) }
    ensures edges { IfOk result (λ plain. AreEdges plain.edges.items) }
{
    let Some(entity) = entity else {
        return Ok(empty_atlas(alloc));
    };
    match &entity.part {
        ChosenPart::Atlas(atlas) => plain_atlas(alloc, atlas),
        ChosenPart::Container(_) => Ok(empty_atlas(alloc)),
        ChosenPart::Locus(_) => Ok(empty_atlas(alloc)),
    }
}

// The locus that is chosen of an entity.
fn locus_at(alloc: Global, entity: &Option<ChosenEntity>) -> Result<PlainLocus, AllocError>
    requires kind { IsLocusPart (part_in entity.now) }
    ensures cell { (words : ℕ → ℕ) (x : ℕ) → IfOk result (λ l. LocusCell (locus_of l) ≡ cell_with words x (part_in entity.now)) }
{
    let Some(entity) = entity else {
        unreachable!();
    };
    match &entity.part {
        ChosenPart::Locus(locus) => plain_locus(alloc, locus),
        ChosenPart::Atlas(_) => unreachable!(),
        ChosenPart::Container(_) => unreachable!(),
    }
}

// So many loci, in the order of their numbers.
pub(crate) fn loci_of(
    alloc: Global,
    entities: &[Option<ChosenEntity>],
    many: usize,
) -> Result<Vec<PlainLocus>, AllocError>
    requires places { length entities.now ≡ MOST_ENTITIES }
    requires few { many ≤ 23 }
    requires kinds { (i : ℕ) → i < many → IsLocusPart (parts_of entities.now (i + 41)) }
    ensures many { IfOk result (λ ls. length ls.items ≡ many) }
    ensures cells { (words : ℕ → ℕ) → IfOk result (λ ls. (i : ℕ) → i < many
        → locus_cell (slice_get ls.items i) ≡ cell_with words (i + 41) (parts_of entities.now (i + 41))) }
{
    let mut loci = Vec::new(alloc);
    for place in 0..many {
        let locus = locus_at(alloc, &entities[place + FIRST_LOCUS as usize])?;
        loci.push(locus)?;
    }
    Ok(loci)
}
