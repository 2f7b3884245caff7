// Empty images, and standbys over them.
ghost use Rattle.std.specs.Prelude.{◌≡◌, IfOk};

use edge_disk::{Disk, MemoryDisk};
use image_format::format;
use node_shipments::Shipped;
use node_standby::{Standby, StoreFault};
use std::alloc::Global;
use std::test::Fail;

/// How many writes and syncs make an empty image.
pub(crate) const FORMAT_CALLS: u64 = 10;

/// A disk with an empty image of 2,600 blocks, which keeps 800 writes and syncs, and whose calls with these numbers fail.
pub(crate) fn formatted(alloc: Global, fails: &[u64]) -> Result<MemoryDisk, Fail> {
    let disk = MemoryDisk::new(alloc, 2_600, 800, fails.to_vec(alloc)?)?;
    Ok(format(disk, 2_600).ok().ok_or("an image")?)
}

/// A standby over an empty image.
pub(crate) fn standby<D: Disk + Drop>(alloc: Global, disk: D) -> Result<Standby<D>, Fail>
    ensures { IfOk result (λ s. s.count ≡ 0) }
{
    match Standby::open(alloc, disk) {
        Ok(second) => Ok(second),
        Err(_) => Err("a standby".into()),
    }
}

/// What it answers to a shipment with this number; none where that is the next number, but the shipment may not be taken.
pub(crate) fn answer<D: Disk + Drop>(
    second: &mut Standby<D>,
    number: u64,
    shipped: &Shipped,
) -> Option<Result<u64, StoreFault>> {
    if !second.is_next(number) {
        return Some(second.deliver(number, shipped));
    }
    if !second.may_take(shipped) {
        return None;
    }
    Some(second.deliver(number, shipped))
}
