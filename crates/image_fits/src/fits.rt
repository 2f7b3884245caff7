//! The first chosen entity that doesn't fit the others.
ghost use Rattle.std.specs.Prelude.{◌≡◌, ◌↔◌, IsTrue, List, length, IfOk, IfSome, IfNone};
ghost use Rattle.base_types.specs.declared.records.Rec.{Rec as Record};
ghost use Rattle.image_fit_facts.specs.image_meaning.Fits.{IsTied};
ghost use Rattle.blob_atlas.specs.act_calls.Calls.{atlas_state};
ghost use Rattle.image_fits.specs.Chosen.{part_of, parts_of};
ghost use Rattle.image_fits.specs.Fits.{AreChosen, AreFit, AreFitBy, HasAtlas, IsFirstUnfit, IsFirstUnfitBy, IsFitBy, NoAtlas};

use crate::born::is_born;
use crate::chosen::{ChosenEntity, ChosenPart};
use crate::edges::ties_atlas;
use crate::names::{are_named_once, table_of, uses_of};
use crate::ties::{ties_container, ties_locus};
use base_types::{Entity, MOST_ENTITIES};
use data_atlas::Atlas;
use std::alloc::{AllocError, Global};

// The chosen atlas.
fn atlas_of(entities: &[Option<ChosenEntity>]) -> Option<&Atlas>
    ensures atlas { IfSome result (λ a. HasAtlas entities.now a.now) }
    ensures none { IfNone result (NoAtlas entities.now) }
{
    match entities.first() {
        Some(Some(entity)) => match &entity.part {
            ChosenPart::Atlas(atlas) => Some(atlas),
            _ => None,
        },
        _ => None,
    }
}

// Whether what a chosen part names is born and of the right kind, and so on.
fn ties(atlas: &Atlas, entities: &[Option<ChosenEntity>], part: &ChosenPart) -> bool
    requires { length entities.now ≡ MOST_ENTITIES }
    ensures { IsTrue result ↔ IsTied (parts_of entities.now) (atlas_state atlas.now) (part_of part.now) }
{
    match part {
        ChosenPart::Atlas(other) => ties_atlas(other, entities),
        ChosenPart::Container(container) => ties_container(atlas, &container.head),
        ChosenPart::Locus(locus) => ties_locus(atlas, locus),
    }
}

// Whether a chosen entity fits the others, where blocks are named so often.
fn fits(entities: &[Option<ChosenEntity>], uses: &[u8], x: Entity, part: &ChosenPart) -> bool
    requires { length entities.now ≡ MOST_ENTITIES }
    ensures { IsTrue result ↔ IsFitBy uses.now entities.now x (part_of part.now) }
{
    let Some(atlas) = atlas_of(entities) else {
        return false;
    };
    let named = is_born(atlas, x);
    let tied = ties(atlas, entities, part);
    let once = are_named_once(uses, table_of(part));
    named & tied & once
}

// The first chosen entity that doesn't fit the others, where blocks are named so often.
fn first_unfit_by(entities: &[Option<ChosenEntity>], uses: &[u8]) -> Option<Entity>
    requires { length entities.now ≡ MOST_ENTITIES }
    ensures found { IfSome result (IsFirstUnfitBy uses.now entities.now) }
    ensures none { IfNone result (AreFitBy uses.now entities.now) }
{
    for number in 0..MOST_ENTITIES {
        if let Some(entity) = &entities[number as usize] {
            let x = Entity::of(number);
            if !fits(entities, uses, x, &entity.part) {
                return Some(x);
            }
        }
    }
    None
}

/// The first chosen entity that doesn't fit the others, in an image of `count` blocks. There is one place for each entity.
///
/// It takes a byte of memory for each block of the image. Each page and each block of a blob is looked at three times at most; the
/// rest costs what [`ties_atlas`] does, and a look at what each chosen entity names.
pub fn first_unfit(
    alloc: Global,
    count: u32,
    entities: &[Option<ChosenEntity>],
) -> Result<Option<Entity>, AllocError>
    requires { length entities.now ≡ MOST_ENTITIES }
    ensures found { (recs : List Record) → AreChosen recs entities.now
        → IfOk result (λ o. IfSome o (IsFirstUnfit count recs (parts_of entities.now))) }
    ensures none { (recs : List Record) → AreChosen recs entities.now
        → IfOk result (λ o. IfNone o (AreFit count recs (parts_of entities.now))) }
{
    let uses = uses_of(alloc, count, entities)?;
    Ok(first_unfit_by(entities, &uses))
}
