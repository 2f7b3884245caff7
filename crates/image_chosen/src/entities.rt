//! The chosen entities of an image, read one behind another.
ghost use Rattle.std.specs.Prelude.{◌≡◌, ◌<◌, IfOk, IfSome, IsErrOf, length, slice_get, slice_index, Some};
ghost use Rattle.edge_disk.specs.Counts.{Rose};
ghost use Rattle.image_blocks.specs.Checks.{Bad as BadPlace};
ghost use Rattle.image_chosen_facts.specs.image_meaning.Foreign.{IsBadBlob};
ghost use Rattle.image_chosen_facts.specs.image_meaning.Parts.{AreFormed, AreSpelt, IsFormed, IsSpelt, chosen, cut_of};
ghost use Rattle.image_chosen_facts.specs.log_reading.Logs.{IsKnown};
ghost use Rattle.image_chosen_facts.specs.log_facts.Reads.{ReadsOnly};
ghost use Rattle.image_chosen_facts.specs.image_fits.Chosen.{part_of, parts_of, record_in};
ghost use Rattle.image_chosen_facts.specs.image_fits.Fits.{AreChosen};
ghost use Rattle.image_chosen_facts.specs.Choosing.{IsBadEntity, IsBadSlot};

use crate::choosing::chosen_slot;
use base_bytes::Blob;
use base_types::{Cut, Entity, MOST_ENTITIES};
use edge_disk::Disk;
use image_blocks::body_of;
use image_chosen_facts::{ChosenEntity, ImageLog, ReadingFault, load};
use std::alloc::Global;

// The record of a slot, with what its blob spells.
fn read_slot<D: Disk>(
    disk: &mut D,
    log: &ImageLog,
    slot: u16,
    room: &mut Blob,
) -> Result<ChosenEntity, ReadingFault>
    requires known { IsKnown (D.block_count disk.old) log.now }
    requires there { slot < length log.now.recs.items }
    ensures record { IfOk result (λ e. slice_get log.now.recs.items slot ≡ Some e.rec) }
    ensures formed { IfOk result (λ e. IsFormed e.rec.entity (part_of e.part)) }
    ensures spelt { D.tells → IfOk result (λ e. IsSpelt (D.reading disk.old) e.rec.entity e.rec (part_of e.part)) }
    ensures foreign { D.tells → (bad : BadPlace) → IsErrOf result (ReadingFault.Foreign bad)
        → IsBadSlot (D.reading disk.old) log.now.recs.items log.now.area slot bad }
    ensures cause { IsErrOf result ReadingFault.ReadFault → Rose (D.faults disk.old) (D.faults disk.new) }
    ensures same { ReadsOnly D.Disk disk.old disk.new }
{
    let rec = log.recs[slot as usize];
    match load(disk, &rec, body_of(log.area, slot), room)? {
        Ok(part) => Ok(ChosenEntity { rec, part }),
        Err(bad) => Err(ReadingFault::Foreign(bad)),
    }
}

// What is chosen of an entity.
fn read_entity<D: Disk>(
    disk: &mut D,
    log: &ImageLog,
    cut: &Cut,
    x: Entity,
    room: &mut Blob,
) -> Result<Option<ChosenEntity>, ReadingFault>
    requires known { IsKnown (D.block_count disk.old) log.now }
    requires cut { slice_index cut.now.0 ≡ cut_of log.now.recs.items }
    ensures chosen { IfOk result (λ o. chosen log.now.recs.items x ≡ record_in o) }
    ensures formed { IfOk result (λ o. IfSome o (λ e. IsFormed x (part_of e.part))) }
    ensures spelt { D.tells → IfOk result (λ o. IfSome o (λ e. IsSpelt (D.reading disk.old) x e.rec (part_of e.part))) }
    ensures foreign { D.tells → (bad : BadPlace) → IsErrOf result (ReadingFault.Foreign bad)
        → IsBadEntity (D.reading disk.old) log.now.recs.items log.now.area x bad }
    ensures cause { IsErrOf result ReadingFault.ReadFault → Rose (D.faults disk.old) (D.faults disk.new) }
    ensures same { ReadsOnly D.Disk disk.old disk.new }
{
    let Some(slot) = chosen_slot(&log.recs, cut, x) else {
        return Ok(None);
    };
    let entity = read_slot(disk, log, slot, room)?;
    Ok(Some(entity))
}

// What is chosen of each entity, in the order of their numbers.
pub(crate) fn read_entities<D: Disk>(
    alloc: Global,
    disk: &mut D,
    log: &ImageLog,
    cut: &Cut,
) -> Result<Vec<Option<ChosenEntity>>, ReadingFault>
    requires known { IsKnown (D.block_count disk.old) log.now }
    requires cut { slice_index cut.now.0 ≡ cut_of log.now.recs.items }
    ensures places { IfOk result (λ es. length es.items ≡ MOST_ENTITIES) }
    ensures chosen { IfOk result (λ es. AreChosen log.now.recs.items es.items) }
    ensures formed { IfOk result (λ es. AreFormed (parts_of es.items)) }
    ensures spelt { D.tells → IfOk result (λ es. AreSpelt (D.reading disk.old) log.now.recs.items (parts_of es.items)) }
    ensures foreign { D.tells → (bad : BadPlace) → IsErrOf result (ReadingFault.Foreign bad)
        → IsBadBlob (D.reading disk.old) log.now.recs.items log.now.area bad }
    ensures cause { IsErrOf result ReadingFault.ReadFault → Rose (D.faults disk.old) (D.faults disk.new) }
    ensures same { ReadsOnly D.Disk disk.old disk.new }
{
    let Ok(mut room) = Blob::new(alloc) else {
        return Err(ReadingFault::Memory);
    };
    let mut entities = Vec::new(alloc);
    for number in 0..MOST_ENTITIES {
        let entity = read_entity(disk, log, cut, Entity::of(number), &mut room)?;
        entities.push(entity)?;
    }
    Ok(entities)
}
