// The log of an image.
ghost use Rattle.std.specs.Prelude.{◌≡◌, Some, IfOk, IsErrOf};
ghost use Rattle.image_blocks.specs.Checks.{Bad as BadPlace, records_fault};
ghost use Rattle.edge_disk.specs.Counts.{Rose};
ghost use Rattle.log_reading.specs.Logs.{IsKnown, IsLogOf};
ghost use Rattle.log_facts.specs.Reads.{ReadsOnly};

use crate::ReadingFault;
use crate::front::{front_of, place_of};
use crate::slots::records_of;
use base_types::Rec;
use edge_disk::Disk;
use image_blocks::Area;
use std::alloc::Global;

/// The log of an image: how many blocks the image has, its active area with its epoch, and its records in order.
#[derive(Debug, Drop)]
pub struct ImageLog {
    pub blocks: u32,
    pub area: Area,
    pub epoch: u64,
    pub recs: Vec<Rec>,
}

/// Reads the log of the image that a disk holds. It begins no write and no sync, reads 1,286 blocks at most, and takes memory
/// for the records, 568 bytes each. Each body is compared with the records before it.
///
/// `Foreign` comes exactly where a check refuses the image, with its first bad place; `ReadFault` only where a read failed.
pub fn read_log<D: Disk>(alloc: Global, disk: &mut D) -> Result<ImageLog, ReadingFault>
    ensures log { D.tells → IfOk result (IsLogOf (D.reading disk.old)) }
    ensures foreign { D.tells → (bad : BadPlace) → IsErrOf result (ReadingFault.Foreign bad) → records_fault (D.reading disk.old) ≡ Some bad }
    ensures known { IfOk result (IsKnown (D.block_count disk.old)) }
    ensures cause { IsErrOf result ReadingFault.ReadFault → Rose (D.faults disk.old) (D.faults disk.new) }
    ensures same { ReadsOnly D.Disk disk.old disk.new }
{
    let blocks = match front_of(disk)? {
        Ok(blocks) => blocks,
        Err(bad) => return Err(ReadingFault::Foreign(bad)),
    };
    let (area, epoch) = match place_of(disk)? {
        Ok(place) => place,
        Err(bad) => return Err(ReadingFault::Foreign(bad)),
    };
    let recs = match records_of(alloc, disk, blocks, area) {
        Ok(recs) => recs,
        Err(fault) => return Err(fault),
    };
    Ok(ImageLog {
        blocks,
        area,
        epoch,
        recs,
    })
}
