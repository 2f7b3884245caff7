// Images made by hand, and what stands on a disk.
use base_types::{Entity, Rec};
use edge_disk::{Disk, DiskFault, MemoryDisk};
use image_blocks::{body_block, epoch_of, header_block, open_gate, superblock};
use image_format::format;
use open_kernel::{Kernel, open_image};
use std::alloc::Global;
use std::test::Fail;
use store_snapshots::OpenWhy;

/// Names a container `a` and a locus `l`.
const ATLAS: [u8; 9] = [0, 1, 1, 0x61, 1, 1, 0x6c, 0, 0];

/// Two pages, in the blocks 2,568 and 2,570, and a tag of 7.
const CONTAINER: [u8; 27] = [
    1, 2, 0, 7, 0, 0, 0, 0, 0, 0, 0, 0, 0, 0, 0, 255, 0, 0, 0, 8, 10, 0, 0, 10, 10, 0, 0,
];

// A locus without code, in the container 1.
fn locus() -> [u8; 77] {
    let mut bytes = [0; 77];
    bytes[0] = 2;
    bytes[6] = 1;
    bytes
}

// A disk of 2,600 blocks with an empty image, made by the calls 1 to 10 of it, with room for 250 calls.
pub(crate) fn formatted(alloc: Global, fails: &[u64]) -> Result<MemoryDisk, Fail> {
    let disk = MemoryDisk::new(alloc, 2600, 250, fails.to_vec(alloc)?)?;
    let disk = format(disk, 2600).ok().ok_or("an image")?;
    Ok(disk)
}

// The kernel of the image, with two frames for each container and nine steps for each locus.
pub(crate) fn opened(alloc: Global, disk: MemoryDisk) -> Result<Kernel<MemoryDisk>, Fail> {
    let kernel = open_image(alloc, disk, 2, 9).ok().ok_or("a kernel")?;
    Ok(kernel)
}

// Why it is not opened, if it isn't.
pub(crate) fn fault_of(alloc: Global, disk: MemoryDisk) -> Option<OpenWhy> {
    match open_image(alloc, disk, 1, 10) {
        Ok(_) => None,
        Err(fault) => Some(fault.why),
    }
}

// Writes bytes at the front of a block, where there is one.
fn put(disk: &mut MemoryDisk, at: u32, bytes: &[u8]) -> Result<(), DiskFault> {
    let mut block = [0; 1024];
    if at >= disk.blocks() || bytes.len() > 1024 {
        return Err(DiskFault);
    }
    block[..bytes.len()].copy_from_slice(bytes);
    disk.write(at, &block)
}

// Changes a byte of a block.
pub(crate) fn alter(
    disk: &mut MemoryDisk,
    at: u32,
    place: usize,
    byte: u8,
) -> Result<(), DiskFault> {
    let mut block = [0; 1024];
    if at >= disk.blocks() || place >= 1024 {
        return Err(DiskFault);
    }
    disk.read(at, &mut block)?;
    block[place] = byte;
    disk.write(at, &block)
}

// The number in the first 8 bytes of a block.
pub(crate) fn number_in(disk: &mut MemoryDisk, at: u32) -> Result<u64, DiskFault> {
    let mut block = [0; 1024];
    if at >= disk.blocks() {
        return Err(DiskFault);
    }
    disk.read(at, &mut block)?;
    Ok(epoch_of(&block))
}

// Whether a block is the body of this record.
pub(crate) fn is_body(disk: &mut MemoryDisk, at: u32, rec: &Rec) -> Result<bool, DiskFault> {
    let mut block = [0; 1024];
    if at >= disk.blocks() {
        return Err(DiskFault);
    }
    disk.read(at, &mut block)?;
    Ok(block == body_block(rec))
}

// A record of an entity, whose blob of so many bytes is in this block.
pub(crate) fn record(entity: Entity, version: u64, length: u32, block: u32) -> Rec {
    let mut stamp = [0; 64];
    stamp[entity.number() as usize] = version;
    Rec {
        entity,
        version,
        stamp,
        length,
        blocks: [block, 0, 0, 0, 0, 0, 0, 0],
    }
}

// Puts the body of a record into a slot, and opens its gate.
fn put_record(disk: &mut MemoryDisk, slot: u32, rec: &Rec) -> Result<(), DiskFault> {
    if slot > 8 {
        return Err(DiskFault);
    }
    put(disk, 5 + 2 * slot, &body_block(rec))?;
    put(disk, 6 + 2 * slot, &open_gate())
}

// The records of the container 1, the atlas and the locus 41 at version 3, in this order in area A of an image of 2,600 blocks.
pub(crate) fn of_three(alloc: Global) -> Result<MemoryDisk, Fail> {
    let mut disk = MemoryDisk::new(alloc, 2600, 250, Vec::new(alloc))?;
    put(&mut disk, 0, &superblock(2600))?;
    put(&mut disk, 1, &header_block(1))?;
    put(&mut disk, 2, &open_gate())?;
    put_record(&mut disk, 0, &record(Entity::of(1), 3, 27, 2565))?;
    put_record(&mut disk, 1, &record(Entity::ATLAS, 3, 9, 2566))?;
    put_record(&mut disk, 2, &record(Entity::of(41), 3, 77, 2567))?;
    put(&mut disk, 2565, &CONTAINER)?;
    put(&mut disk, 2566, &ATLAS)?;
    put(&mut disk, 2567, &locus())?;
    Ok(disk)
}

// The same with a later record of the locus behind them, which would need the container's version 4: it was abandoned.
pub(crate) fn with_abandoned(alloc: Global) -> Result<MemoryDisk, Fail> {
    let mut disk = of_three(alloc)?;
    let mut later = record(Entity::of(41), 4, 77, 2571);
    later.stamp[1] = 4;
    put_record(&mut disk, 3, &later)?;
    Ok(disk)
}

// The version of an entity in a kernel, if it has such a cell.
pub(crate) fn version_of(kernel: &Kernel<MemoryDisk>, number: usize) -> Option<u64> {
    match kernel.cells().get(number) {
        Some(cell) => Some(cell.clock.version),
        None => None,
    }
}

// Whether the kernel has the container `a` and the locus `l`, each at version 3 as the atlas.
pub(crate) fn is_of_three(kernel: &Kernel<MemoryDisk>) -> bool {
    let atlas = kernel.atlas();
    let named = atlas.find("a") == Some(Entity::of(1)) && atlas.find("l") == Some(Entity::of(41));
    let third = Some(3);
    named
        && version_of(kernel, 0) == third
        && version_of(kernel, 1) == third
        && version_of(kernel, 41) == third
}
