// An image opened for a kernel: its store, and its cells.
ghost use Rattle.std.specs.Prelude.{◌≡◌, ◌⊎◌, ◌≤◌, ◌<◌, IfOk, IfErr, MatchResult};
ghost use Rattle.edge_tally.specs.Counts.{Begins, shown};
ghost use Rattle.log_reading.specs.image_blocks.Checks.{Bad as BadPlace};
ghost use Rattle.open_facts.specs.image_meaning.Meaning.{Accepted};
ghost use Rattle.open_facts.specs.store_facts.State.{books};
ghost use Rattle.open_facts.specs.store_books.Books.{AreTrue};
ghost use Rattle.open_facts.specs.Images.{AreOfImage, HasBegun, HasImageCauseIn, HasTurnLeft, IsOpenedTable, LeavesMeant, MeansSince, StartsFrom, StopsShort, WasRefused};

use crate::keeping::keep_image;
use edge_disk::Disk;
use open_facts::{Cell, OpenFault, OpenWhy, Store, cells_of};
use std::alloc::Global;

/// Opens the image that a disk holds for a kernel: a store that keeps the chosen records alone (`keep_image`), and the 64 cells as these
/// records tell them, with so many frames for each container, from 1 to 256, and so many steps for each locus. With both a kernel
/// stands at the start of each run that begins with what the image means. Behind `keep_image` no disk is touched; the cells take 40
/// KiB for a frame of each, and some 300 KiB besides.
pub fn open_parts<D: Disk>(
    alloc: Global,
    disk: D,
    frames: u16,
    steps: u32,
) -> Result<(Store<D>, Vec<Cell>), OpenFault<D>>
    requires some { 0 < frames }
    requires few { frames ≤ 256 }
    ensures table { IfOk result (λ o. IsOpenedTable frames steps o.0 o.1.items) }
    ensures means { D.tells → IfOk result (λ o. AreOfImage (D.reading disk) o.0 o.1.items) }
    ensures starts { D.tells → IfOk result (λ o. StartsFrom D.Disk steps disk o.0 o.1.items) }
    ensures true_books { D.tells → IfOk result (λ o. AreTrue D.Disk (books o.0) o.0.disk) }
    ensures cause { IfErr result (λ fault. HasImageCauseIn D.Disk disk fault.disk fault.why) }
    ensures not_foreign { D.tells → Accepted (D.reading disk) → IfErr result (λ fault. (bad : BadPlace) → fault.why ≡ OpenWhy.Foreign bad → ⊥) }
    ensures refused { IfErr result (λ fault. (bad : BadPlace) → fault.why ≡ OpenWhy.Foreign bad
        → WasRefused D.Disk disk fault.disk) }
    // From the end of the sync on each image that a stop leaves means what was meant before; only where the sync failed nothing is said.
    ensures since { D.tells → HasTurnLeft (D.reading disk) → MatchResult result
        (λ o. MeansSince D.Disk disk o.0.disk)
        (λ fault. StopsShort D.Disk fault.why disk fault.disk ⊎ MeansSince D.Disk disk fault.disk) }
    // And until then each that it leaves could be left before.
    ensures any_moment { D.tells → HasTurnLeft (D.reading disk) → MatchResult result
        (λ o. LeavesMeant D.Disk disk o.0.disk)
        (λ fault. LeavesMeant D.Disk disk fault.disk) }
    ensures begins { MatchResult result
        (λ o. Begins 138 (shown D.Disk disk 0) (shown D.Disk o.0.disk (books o.0).begun))
        (λ fault. HasBegun D.Disk 138 0 disk fault.disk) }
{
    let (store, parts) = match keep_image(alloc, disk) {
        Ok(kept) => kept,
        Err(fault) => return Err(fault),
    };
    match cells_of(alloc, parts, frames, steps) {
        Ok(cells) => Ok((store, cells)),
        Err(_) => Err(OpenFault {
            why: OpenWhy::Memory,
            disk: store.into_disk(),
        }),
    }
}
