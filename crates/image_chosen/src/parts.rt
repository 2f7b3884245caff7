//! The parts of an image that is accepted, or its first bad place.
ghost use Rattle.std.specs.Prelude.{IfOk, IsErrOf};
ghost use Rattle.edge_disk.specs.Counts.{Rose};
ghost use Rattle.image_blocks.specs.Checks.{Bad as BadPlace};
ghost use Rattle.image_chosen_facts.specs.image_meaning.Foreign.{IsBadMeaning};
ghost use Rattle.image_chosen_facts.specs.log_reading.Logs.{IsKnown, IsLogOf};
ghost use Rattle.image_chosen_facts.specs.log_facts.Reads.{ReadsOnly};
ghost use Rattle.image_chosen_facts.specs.image_fits.Chosen.{parts_of};
ghost use Rattle.image_chosen.specs.Parts.{ArePartsOf};
ghost use Rattle.image_chosen_facts.specs.Parts.{IsAcceptedWith};

use crate::choosing::choice_of;
use crate::entities::read_entities;
use crate::fitting::unfit_place;
use base_types::Cut;
use edge_disk::Disk;
use image_chosen_facts::{ChosenEntity, ImageLog, ReadingFault};
use std::alloc::Global;

/// What the records of a log say together: the greatest closed choice over them, and for each of the 64 entities the record that it
/// takes with what the record's blob spells.
#[derive(Debug, Drop)]
pub struct ImageParts {
    pub cut: Cut,
    pub entities: Vec<Option<ChosenEntity>>,
}

/// Reads the parts of the image on a disk, whose log this is. It begins no write and no sync, and reads the blocks of the chosen
/// records' blobs: 8 for each of 64 entities at most. It takes memory for 64 entities, 8 KiB for a blob and a byte for each block
/// of the image. The log is gone through once for each entity, and once more for one that doesn't fit.
///
/// `Foreign` comes exactly where a chosen blob is no spelling with zeros behind it, or a chosen entity doesn't fit the others, with
/// the first bad place; `ReadFault` only where a read failed.
pub fn read_parts<D: Disk>(
    alloc: Global,
    disk: &mut D,
    log: &ImageLog,
) -> Result<ImageParts, ReadingFault>
    requires { IsKnown (D.block_count disk.old) log.now }
    ensures parts { IfOk result (ArePartsOf log.now) }
    ensures accepted { D.tells → IsLogOf (D.reading disk.old) log.now
        → IfOk result (λ parts. IsAcceptedWith (D.reading disk.old) log.now.recs.items (parts_of parts.entities.items)) }
    ensures foreign { D.tells → IsLogOf (D.reading disk.old) log.now → (bad : BadPlace) → IsErrOf result (ReadingFault.Foreign bad)
        → IsBadMeaning (D.reading disk.old) bad }
    ensures cause { IsErrOf result ReadingFault.ReadFault → Rose (D.faults disk.old) (D.faults disk.new) }
    ensures same { ReadsOnly D.Disk disk.old disk.new }
{
    let cut = choice_of(log.blocks, &log.recs);
    let entities = read_entities(alloc, disk, log, &cut)?;
    match unfit_place(alloc, log, &cut, &entities) {
        Ok(None) => Ok(ImageParts { cut, entities }),
        Ok(Some(bad)) => Err(ReadingFault::Foreign(bad)),
        Err(_) => Err(ReadingFault::Memory),
    }
}
