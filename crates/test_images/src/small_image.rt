//! A small image for tests: an atlas, a container of two pages and a locus.
use base_types::{Cut, Entity, Rec};
use edge_disk::{Disk, DiskFault, MemoryDisk};
use image_blocks::{body_block, header_block, open_gate, superblock};
use page_words::block_with;
use std::alloc::Global;
use std::test::Fail;

/// How many writes make it.
pub const WRITES: u64 = 16;

/// Names a container `a` and a locus `l`.
const ATLAS: [u8; 9] = [0, 1, 1, 0x61, 1, 1, 0x6c, 0, 0];

/// Two pages, in the blocks 2,568 and 2,570, and a tag of 7.
const CONTAINER: [u8; 27] = [
    1, 2, 0, 7, 0, 0, 0, 0, 0, 0, 0, 0, 0, 0, 0, 255, 0, 0, 0, 8, 10, 0, 0, 10, 10, 0, 0,
];

// A locus without code, in the container 1.
fn locus() -> [u8; 77] {
    let mut bytes = [0; 77];
    bytes[0] = 2;
    bytes[6] = 1;
    bytes
}

// Writes bytes at the front of a block, where there is one.
fn put(disk: &mut MemoryDisk, at: u32, bytes: &[u8]) -> Result<(), DiskFault> {
    let mut block = [0; 1024];
    if at >= disk.blocks() || bytes.len() > 1024 {
        return Err(DiskFault);
    }
    block[..bytes.len()].copy_from_slice(bytes);
    disk.write(at, &block)
}

/// Changes a byte of a block.
pub fn alter(disk: &mut MemoryDisk, at: u32, place: usize, byte: u8) -> Result<(), DiskFault> {
    let mut block = [0; 1024];
    if at >= disk.blocks() || place >= 1024 {
        return Err(DiskFault);
    }
    disk.read(at, &mut block)?;
    block[place] = byte;
    disk.write(at, &block)
}

// The first record of an entity, whose blob of so many bytes is in this block.
fn record(entity: Entity, length: u32, block: u32) -> Rec {
    let mut stamp = [0; 64];
    stamp[entity.number() as usize] = 1;
    Rec {
        entity,
        version: 1,
        stamp,
        length,
        blocks: [block, 0, 0, 0, 0, 0, 0, 0],
    }
}

// The block of a page whose words are 7, but for one.
fn page(place: usize, word: u64) -> [u8; 1024] {
    let mut words = [7; 128];
    if place < 128 {
        words[place] = word;
    }
    block_with(&words)
}

// The superblock, and an empty log in area A.
fn put_front(disk: &mut MemoryDisk) -> Result<(), DiskFault> {
    put(disk, 0, &superblock(2600))?;
    put(disk, 1, &header_block(1))?;
    put(disk, 2, &open_gate())
}

// The bodies of four records, with the gates behind three of them.
fn put_log(disk: &mut MemoryDisk) -> Result<(), DiskFault> {
    put(disk, 5, &body_block(&record(Entity::of(1), 27, 2565)))?;
    put(disk, 6, &open_gate())?;
    put(disk, 7, &body_block(&record(Entity::ATLAS, 9, 2566)))?;
    put(disk, 8, &open_gate())?;
    put(disk, 9, &body_block(&record(Entity::of(41), 77, 2567)))?;
    put(disk, 10, &open_gate())?;
    put(disk, 11, &body_block(&record(Entity::of(42), 77, 2569)))
}

// Their blobs, and the two pages of the container.
fn put_blobs(disk: &mut MemoryDisk) -> Result<(), DiskFault> {
    put(disk, 2565, &CONTAINER)?;
    put(disk, 2566, &ATLAS)?;
    put(disk, 2567, &locus())?;
    put(disk, 2569, &locus())?;
    put(disk, 2568, &page(3, 5))?;
    put(disk, 2570, &page(1, 9))
}

/// An image without a record.
pub fn formatted(alloc: Global) -> Result<MemoryDisk, Fail> {
    let mut disk = MemoryDisk::new(alloc, 2600, 40, Vec::new(alloc))?;
    put_front(&mut disk)?;
    Ok(disk)
}

/// A log of the container, the atlas and the locus 41, and behind its closed gate the locus 42; the calls of these numbers fail.
pub fn image(alloc: Global, fails: &[u64]) -> Result<MemoryDisk, Fail> {
    let mut disk = MemoryDisk::new(alloc, 2600, 40, fails.to_vec(alloc)?)?;
    put_front(&mut disk)?;
    put_log(&mut disk)?;
    put_blobs(&mut disk)?;
    Ok(disk)
}

/// The cut over its records.
pub fn cut() -> Cut {
    let mut versions = [0; 64];
    versions[0] = 1;
    versions[1] = 1;
    versions[41] = 1;
    Cut(versions)
}
