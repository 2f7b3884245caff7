// The chosen records of an image that was read, kept alone.
ghost use Rattle.std.specs.Prelude.{◌≡◌, ◌⊎◌, IfOk, IfErr, MatchResult};
ghost use Rattle.edge_tally.specs.Counts.{Begins, shown};
ghost use Rattle.edge_disk.specs.Moments.{LeavesOnly};
ghost use Rattle.log_reading.specs.image_blocks.Checks.{Bad as BadPlace};
ghost use Rattle.open_facts.specs.image_meaning.Meaning.{Accepted};
ghost use Rattle.open_facts.specs.image_chosen_facts.Parts.{IsAcceptedWith};
ghost use Rattle.open_facts.specs.image_fits.Chosen.{parts_of};
ghost use Rattle.open_facts.specs.store_facts.Opening.{IsSynced};
ghost use Rattle.open_facts.specs.store_facts.State.{books};
ghost use Rattle.open_facts.specs.Images.{AreReadOf, HasBegun, HasImageCauseIn, HasKeepCause, HasTurnLeft, HoldsImage, IsOpened, LeavesMeant, MeansSame, MeansSince, StopsShort, WasRefused};

use crate::reading::{ReadImage, read_image};
use edge_disk::Disk;
use open_facts::{ImageParts, OpenFault, OpenWhy, Store};
use std::alloc::Global;

// The store of an image that was read, which keeps its chosen records alone.
fn kept<D: Disk>(alloc: Global, read: ReadImage<D>) -> Result<(Store<D>, ImageParts), OpenFault<D>>
    requires synced { IsSynced D.Disk read.synced.disk read.synced.tally read.synced.log }
    requires read { AreReadOf read.synced.log read.parts read.tables.items }
    requires accepted { D.tells → IsAcceptedWith (D.reading read.synced.disk) read.synced.log.recs.items (parts_of read.parts.entities.items) }
    ensures opened { IfOk result (λ o. IsOpened o.0 o.1) }
    ensures holds { D.tells → IfOk result (λ o. HoldsImage D.Disk (D.reading read.synced.disk) o.0 o.1) }
    ensures cause { IfErr result (λ fault. HasKeepCause (D.faults read.synced.disk) (D.faults fault.disk) fault.why) }
    ensures moments { D.tells → HasTurnLeft (D.reading read.synced.disk) → MatchResult result
        (λ o. LeavesOnly D.Disk read.synced.disk o.0.disk (MeansSame (D.reading read.synced.disk)))
        (λ fault. LeavesOnly D.Disk read.synced.disk fault.disk (MeansSame (D.reading read.synced.disk))) }
    ensures begins { MatchResult result
        (λ o. Begins 137 (shown D.Disk read.synced.disk 1) (shown D.Disk o.0.disk (books o.0).begun))
        (λ fault. HasBegun D.Disk 137 1 read.synced.disk fault.disk) }
{
    let ReadImage {
        synced,
        parts,
        tables,
    } = read;
    let mut store = match Store::over(alloc, synced) {
        Ok(store) => store,
        Err(fault) => return Err(fault),
    };
    match store.keep_chosen(&tables) {
        Ok(()) => Ok((store, parts)),
        Err(_) => Err(OpenFault {
            why: OpenWhy::WriteFault,
            disk: store.into_disk(),
        }),
    }
}

/// Opens the image that a disk holds: the disk is synced, the log and the chosen records' blobs are read, with all checks, and the log
/// is turned to the chosen records alone, ascending by entity. Their tables are working page tables: the blocks are held. It begins
/// 138 writes and syncs at most, reads 1,286 blocks of the log and 8 of each chosen blob at most, and takes some 3 megabytes, and 6
/// bytes for each block of the image.
///
/// `Foreign` comes exactly where a check refuses the image, with its first bad place, and then nothing was written; `ReadFault` and
/// `WriteFault` only where the disk's count of faults rose. The disk comes back.
pub fn keep_image<D: Disk>(alloc: Global, disk: D) -> Result<(Store<D>, ImageParts), OpenFault<D>>
    ensures opened { IfOk result (λ o. IsOpened o.0 o.1) }
    ensures holds { D.tells → IfOk result (λ o. HoldsImage D.Disk (D.reading disk) o.0 o.1) }
    ensures cause { IfErr result (λ fault. HasImageCauseIn D.Disk disk fault.disk fault.why) }
    ensures not_foreign { D.tells → Accepted (D.reading disk) → IfErr result (λ fault. (bad : BadPlace) → fault.why ≡ OpenWhy.Foreign bad → ⊥) }
    ensures refused { IfErr result (λ fault. (bad : BadPlace) → fault.why ≡ OpenWhy.Foreign bad
        → WasRefused D.Disk disk fault.disk) }
    // From the end of the sync on each image that a stop leaves means what was meant before; only where the sync failed nothing is said.
    ensures since { D.tells → HasTurnLeft (D.reading disk) → MatchResult result
        (λ o. MeansSince D.Disk disk o.0.disk)
        (λ fault. StopsShort D.Disk fault.why disk fault.disk ⊎ MeansSince D.Disk disk fault.disk) }
    // And until then each that it leaves could be left before.
    ensures any_moment { D.tells → HasTurnLeft (D.reading disk) → MatchResult result
        (λ o. LeavesMeant D.Disk disk o.0.disk)
        (λ fault. LeavesMeant D.Disk disk fault.disk) }
    ensures begins { MatchResult result
        (λ o. Begins 138 (shown D.Disk disk 0) (shown D.Disk o.0.disk (books o.0).begun))
        (λ fault. HasBegun D.Disk 138 0 disk fault.disk) }
{
    match read_image(alloc, disk) {
        Ok(read) => kept(alloc, read),
        Err(fault) => Err(fault),
    }
}
