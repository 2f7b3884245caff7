//! Whether the chosen entities fit each other, and the place that is bad where one doesn't.
ghost use Rattle.std.specs.Prelude.{◌≡◌, ◌≤◌, IfOk, IfSome, IfNone, length, slice_index};
ghost use Rattle.edge_disk.specs.Image.{Image};
ghost use Rattle.image_blocks.specs.image_facts.Checks.{count_in};
ghost use Rattle.image_blocks.specs.image_facts.Layout.{slot_count};
ghost use Rattle.image_chosen_facts.specs.image_meaning.Foreign.{IsUnfit};
ghost use Rattle.image_chosen_facts.specs.image_meaning.Parts.{AreSpelt, cut_of};
ghost use Rattle.image_chosen_facts.specs.image_fits.Chosen.{parts_of};
ghost use Rattle.image_chosen_facts.specs.image_fits.Fits.{AreChosen, AreFit};

use crate::choosing::chosen_slot;
use base_types::{Cut, MOST_ENTITIES};
use image_blocks::{Bad, body_of};
use image_chosen_facts::{ChosenEntity, ImageLog, first_unfit};
use std::alloc::{AllocError, Global};

// The body of the first chosen entity that doesn't fit the others.
pub(crate) fn unfit_place(
    alloc: Global,
    log: &ImageLog,
    cut: &Cut,
    entities: &[Option<ChosenEntity>],
) -> Result<Option<Bad>, AllocError>
    requires few { length log.now.recs.items ≤ slot_count }
    requires cut { slice_index cut.now.0 ≡ cut_of log.now.recs.items }
    requires places { length entities.now ≡ MOST_ENTITIES }
    requires chosen { AreChosen log.now.recs.items entities.now }
    ensures some { (image : Image) → AreSpelt image log.now.recs.items (parts_of entities.now) → log.now.blocks ≡ count_in image
        → IfOk result (λ o. IfSome o (IsUnfit image log.now.recs.items log.now.area)) }
    ensures none { IfOk result (λ o. IfNone o (AreFit log.now.blocks log.now.recs.items (parts_of entities.now))) }
{
    let Some(x) = first_unfit(alloc, log.blocks, entities)? else {
        return Ok(None);
    };
    match chosen_slot(&log.recs, cut, x) {
        Some(slot) => Ok(Some(Bad {
            block: body_of(log.area, slot),
            place: 0,
        })),
        // Never: only a chosen entity is told.
        None => Ok(None),
    }
}
