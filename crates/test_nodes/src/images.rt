// Empty images, standbys over them, and what an image holds.
ghost use Rattle.std.specs.Prelude.{◌≡◌, IfOk};

use edge_disk::{Disk, MemoryDisk};
use image_format::format;
use node_shipments::Shipped;
use node_standby::{Standby, StandbyWhy, StoreFault};
use std::alloc::Global;
use std::test::Fail;

// How many writes and syncs make an empty image.
pub(crate) const FORMAT_CALLS: u64 = 10;

// A disk with an empty image of so many blocks, which keeps so many writes and syncs, and whose calls with these numbers fail.
pub(crate) fn image(
    alloc: Global,
    blocks: u32,
    room: u32,
    fails: &[u64],
) -> Result<MemoryDisk, Fail> {
    if blocks < 2_600 || blocks > 65_536 {
        return Err("a number of blocks".into());
    }
    let disk = MemoryDisk::new(alloc, blocks, room, fails.to_vec(alloc)?)?;
    Ok(format(disk, blocks).ok().ok_or("an image")?)
}

// The one of 2,600 blocks, of which 35 are in its pool.
pub(crate) fn small_image(alloc: Global, fails: &[u64]) -> Result<MemoryDisk, Fail> {
    image(alloc, 2_600, 60, fails)
}

// A standby over an empty image.
pub(crate) fn standby<D: Disk + Drop>(alloc: Global, disk: D) -> Result<Standby<D>, Fail>
    ensures { IfOk result (λ s. s.count ≡ 0) }
{
    match Standby::open(alloc, disk) {
        Ok(second) => Ok(second),
        Err(_) => Err("a standby".into()),
    }
}

// What it answers to a shipment with this number; none where that is the next number, but the shipment may not be taken.
pub(crate) fn answer<D: Disk + Drop>(
    second: &mut Standby<D>,
    number: u64,
    shipped: &Shipped,
) -> Option<Result<u64, StoreFault>> {
    if !second.is_next(number) {
        return Some(second.deliver(number, shipped));
    }
    if !second.may_take(shipped) {
        return None;
    }
    Some(second.deliver(number, shipped))
}

// Why an image is not opened for a standby; none where it is.
pub(crate) fn refusal<D: Disk + Drop>(alloc: Global, disk: D) -> Option<StandbyWhy> {
    Standby::open(alloc, disk).err().map(|fault| fault.why)
}

// How many records an image has; none where it is refused for another cause.
pub(crate) fn used_in<D: Disk + Drop>(alloc: Global, disk: D) -> Option<u16> {
    match refusal(alloc, disk) {
        None => Some(0),
        Some(StandbyWhy::NotEmpty { used }) => Some(used),
        Some(_) => None,
    }
}
