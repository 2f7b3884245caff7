// Images with a log, and what is read of them.

use crate::quiet_disk::QuietDisk;
use base_types::{Entity, Rec};
use edge_disk::{Disk, DiskFault, MemoryDisk, Torn};
use image_blocks::{POOL_AT, header_block, open_gate, superblock};
use log_append::LogFault;
use log_reading::{ImageLog, read_log};
use log_turn::Areas;
use std::alloc::Global;
use std::test::Fail;

// The record that a test appends at that version: one of the atlas, with 9 bytes in block 2,565.
pub(crate) fn record(version: u64) -> Rec {
    let mut stamp = [0; 64];
    stamp[0] = version;
    Rec {
        entity: Entity::ATLAS,
        version,
        stamp,
        length: 9,
        blocks: [2565, 0, 0, 0, 0, 0, 0, 0],
    }
}

// The records from the first version up to the last.
pub(crate) fn records(alloc: Global, first: u64, last: u64) -> Result<Vec<Rec>, Fail> {
    let mut recs = Vec::new(alloc);
    for version in first..=last {
        recs.push(record(version))?;
    }
    Ok(recs)
}

// Writes a block, where there is one.
fn put(disk: &mut QuietDisk, at: u32, block: &[u8; 1024]) -> Result<(), DiskFault> {
    if at >= disk.blocks() {
        return Err(DiskFault);
    }
    disk.write(at, block)
}

// A stable image of 2,600 blocks whose log is empty, made by five calls. Area A is active with epoch 1.
pub(crate) fn empty_image(alloc: Global, room: u32, fails: &[u64]) -> Result<QuietDisk, Fail> {
    let memory = MemoryDisk::new(alloc, 2600, room, fails.to_vec(alloc)?)?;
    let mut disk = QuietDisk { memory };
    put(&mut disk, 0, &superblock(2600))?;
    put(&mut disk, 1, &header_block(1))?;
    put(&mut disk, 2, &open_gate())?;
    put(&mut disk, 3, &header_block(0))?;
    disk.sync()?;
    Ok(disk)
}

// Opens the gate of area B, whose epoch is 0, and makes that stable.
pub(crate) fn open_b(disk: &mut QuietDisk) -> Result<(), DiskFault> {
    put(disk, 4, &open_gate())?;
    disk.sync()
}

// Appends a record; the outer fault is a disk that is too small.
pub(crate) fn append(
    areas: &mut Areas,
    disk: &mut QuietDisk,
    rec: &Rec,
) -> Result<Result<(), LogFault>, Fail> {
    if disk.blocks() < POOL_AT {
        return Err(Fail::from("too small"));
    }
    Ok(areas.append(disk, rec))
}

// Keeps these records; the outer fault is a disk that is too small, too many records or too great an epoch.
pub(crate) fn turn(
    areas: &mut Areas,
    disk: &mut QuietDisk,
    kept: &[Rec],
) -> Result<Result<(), LogFault>, Fail> {
    if disk.blocks() < POOL_AT || kept.len() > 640 || areas.epoch() > 7 {
        return Err(Fail::from("too small, or too much"));
    }
    Ok(areas.turn(disk, kept))
}

// The log as it is read.
pub(crate) fn log_of<D: Disk>(alloc: Global, disk: &mut D) -> Result<ImageLog, Fail> {
    let log = read_log(alloc, disk).ok().ok_or("a log")?;
    Ok(log)
}

// The log that a stop at that moment leaves.
pub(crate) fn log_at(
    alloc: Global,
    disk: &QuietDisk,
    moment: u64,
    torn: Torn,
) -> Result<ImageLog, Fail> {
    if moment > disk.memory.moments() {
        return Err(Fail::from("a moment to come"));
    }
    log_of(alloc, &mut disk.memory.crash(moment, torn)?)
}
