// An image opened into a kernel.
ghost use Rattle.std.specs.Prelude.{◌≡◌, ◌⊎◌, ◌+◌, ◌*◌, ◌≤◌, ◌<◌, [], None, IfOk, IfErr, MatchResult};
ghost use Rattle.edge_tally.specs.Counts.{Begins, shown};
ghost use Rattle.kernel_core.specs.model_kernel.State.{Supply};
ghost use Rattle.open_image.specs.image_blocks.Checks.{Bad as BadPlace};
ghost use Rattle.open_image.specs.image_meaning.Meaning.{Accepted};
ghost use Rattle.open_image.specs.open_facts.Images.{HasBegun, HasImageCauseIn, HasTurnLeft, IsOpenedTable, LeavesMeant, MeansSince, StopsShort, WasRefused};
ghost use Rattle.kernel_core.specs.kernel_core_facts.Kernels.{StaysClean};
ghost use Rattle.open_kernel.specs.Starts.{LivesFrom, Opens};
ghost use Rattle.open_image.specs.store_facts.State.{books};

use edge_disk::Disk;
use kernel_core::Kernel;
use open_image::{OpenFault, OpenWhy, open_parts};
use std::alloc::Global;

/// Opens the image that a disk holds into a kernel. The disk is synced, and the image is checked. Its log is turned to the chosen records
/// alone, ascending by entity, and the 64 cells are what they mean; nothing of the kernel was run. It has so many frames for each
/// container, from 1 to 256, and so many steps for each locus, from 1 to 40,000.
///
/// Opening reads the superblock, the headers and gates of both areas, the bodies and gates in use of the active one, and the blobs of the
/// chosen records, and nothing else: 1,286 blocks and 8 for each chosen record at most, so it costs no more after many runs. It begins
/// 138 writes and syncs at most. It takes the memory of `open_parts` and of `Kernel::begin`: what grows with the steps is 92 entries with
/// their marks for each, and what grows with the image 6 bytes for each block.
///
/// `Foreign` comes exactly where the image isn't accepted, with its first bad place, and then nothing was written. `ReadFault` and `WriteFault`
/// come only where the disk's count of faults rose, and `Memory` where memory ran out. The disk comes back with each. From the end of the
/// sync on, also where opening fails, a stop leaves an image that means what was meant before, so it can be opened again.
pub fn open_image<D: Disk>(
    alloc: Global,
    disk: D,
    frames: u16,
    steps: u32,
) -> Result<Kernel<D>, OpenFault<D>>
    requires some { 0 < frames }
    requires few { frames ≤ 256 }
    requires steps_few { steps ≤ 40000 }
    ensures table { IfOk result (λ k. IsOpenedTable frames steps k.parts.store k.parts.cells) }
    ensures opened { D.tells → IfOk result (λ k. Opens D.Disk steps disk k) }
    ensures lives { D.tells → IfOk result (λ k. LivesFrom D.Disk steps disk k) }
    ensures nothing { IfOk result (λ k. (k.parts.noted.entries ≡ []) × (k.parts.noted.marks ≡ []) × (k.stop ≡ None)) }
    ensures room { IfOk result (λ k. k.parts.noted.room ≡ 92 * steps + 200) }
    ensures clean { (s : Supply) → IfOk result (StaysClean D.Disk s) }
    ensures cause { IfErr result (λ fault. HasImageCauseIn D.Disk disk fault.disk fault.why) }
    ensures not_foreign { D.tells → Accepted (D.reading disk) → IfErr result (λ fault. (bad : BadPlace) → fault.why ≡ OpenWhy.Foreign bad → ⊥) }
    ensures refused { IfErr result (λ fault. (bad : BadPlace) → fault.why ≡ OpenWhy.Foreign bad
        → WasRefused D.Disk disk fault.disk) }
    // From the end of the sync on each image that a stop leaves means what was meant before; only where the sync failed nothing is said.
    ensures since { D.tells → HasTurnLeft (D.reading disk) → MatchResult result
        (λ k. MeansSince D.Disk disk k.parts.store.disk)
        (λ fault. StopsShort D.Disk fault.why disk fault.disk ⊎ MeansSince D.Disk disk fault.disk) }
    // And until then each that it leaves could be left before.
    ensures any_moment { D.tells → HasTurnLeft (D.reading disk) → MatchResult result
        (λ k. LeavesMeant D.Disk disk k.parts.store.disk)
        (λ fault. LeavesMeant D.Disk disk fault.disk) }
    ensures begins { MatchResult result
        (λ k. Begins 138 (shown D.Disk disk 0) (shown D.Disk k.parts.store.disk (books k.parts.store).begun))
        (λ fault. HasBegun D.Disk 138 0 disk fault.disk) }
{
    let (store, cells) = match open_parts(alloc, disk, frames, steps) {
        Ok(opened) => opened,
        Err(fault) => return Err(fault),
    };
    Kernel::begin(alloc, store, cells, steps)
}
