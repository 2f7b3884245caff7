//! Images made by hand.
use base_types::{Entity, Rec};
use edge_disk::{Disk, DiskFault, MemoryDisk};
use image_blocks::{body_block, header_block, open_gate, superblock};
use page_words::block_with;
use std::alloc::{AllocError, Global};
use std::test::Fail;

/// How many writes make the image of `with_pages`.
pub(crate) const WRITES: u64 = 13;

/// The first block of a page of `a`: the blobs of the atlas, of `a` and of `l` stand before.
pub(crate) const PAGES_AT: u32 = 2568;

/// Names a container `a` and a locus `l`.
const ATLAS: [u8; 9] = [0, 1, 1, 0x61, 1, 1, 0x6c, 0, 0];

/// Names the containers `a` and `c`, of which `a` shows one region, and a locus `l`.
const ATLAS_OF_TWO: [u8; 14] = [0, 2, 1, 0x61, 1, 0x63, 1, 1, 0x6c, 1, 0, 1, 2, 1];

/// `set r0 5` and `store r1 r0`, behind their number.
const CODE: [u8; 33] = [
    2, 0, 0, 0, 0, 0, 0, 0, 0, 5, 0, 0, 0, 0, 0, 0, 0, 7, 1, 0, 0, 0, 0, 0, 0, 0, 0, 0, 0, 0, 0, 0,
    0,
];

/// Four pages, a tag of 7, an interval of 3 and the entry 1.
const FRONT: [u8; 16] = [1, 4, 0, 7, 0, 0, 0, 0, 0, 0, 0, 3, 0, 0, 0, 1];

/// From page 3 on one page of the container 2 from its page 0 on, to be read; a capability to read it in slot 0; and the blocks 2,569 and 2,570
/// of the pages 0 and 2.
const BACK: [u8; 27] = [
    1, 3, 1, 0, 2, 0, 1, 1, 0, 2, 1, 9, 10, 0, 0, 0, 0, 0, 0, 10, 10, 0, 0, 0, 0, 0, 0,
];

/// A container of one page without a block, a tag of 0.
const PLAIN: [u8; 23] = [
    1, 1, 0, 0, 0, 0, 0, 0, 0, 0, 0, 0, 0, 0, 0, 255, 0, 0, 0, 0, 0, 0, 0,
];

// A locus in the container 1, without code, at this place, with this interval, and this number in its first register.
fn locus(place: u8, every: u8, first: u8) -> [u8; 77] {
    let mut bytes = [0; 77];
    bytes[0] = 2;
    bytes[1] = every;
    bytes[6] = 1;
    bytes[7] = place;
    bytes[8] = first;
    bytes
}

// A container of so many pages, each of which has a block, one behind the other, with a tag of 0 and an interval of 1.
fn container(alloc: Global, pages: u8) -> Result<Vec<u8>, AllocError> {
    let mut bytes = Vec::new(alloc);
    bytes.extend_from_slice(&[1, pages, 0, 0, 0, 0, 0, 0, 0, 0, 0, 1, 0, 0, 0, 255])?;
    bytes.extend_from_slice(&CODE)?;
    bytes.extend_from_slice(&[0, 0])?;
    for page in 0..pages {
        bytes.extend_from_slice(&(PAGES_AT + page as u32).to_le_bytes())?;
    }
    Ok(bytes)
}

// An atlas that names forty containers, `a0` to `d9`, and nothing else.
fn atlas_of_forty(alloc: Global) -> Result<Vec<u8>, AllocError> {
    let mut bytes = Vec::new(alloc);
    bytes.extend_from_slice(&[0, 40])?;
    for number in 0u8..40 {
        bytes.extend_from_slice(&[2, b'a' + number / 10, b'0' + number % 10])?;
    }
    bytes.extend_from_slice(&[0, 0, 0])?;
    Ok(bytes)
}

// Writes bytes at the front of a block, where there is one.
fn put(disk: &mut MemoryDisk, at: u32, bytes: &[u8]) -> Result<(), DiskFault> {
    let mut block = [0; 1024];
    if at >= disk.blocks() || bytes.len() > 1024 {
        return Err(DiskFault);
    }
    block[..bytes.len()].copy_from_slice(bytes);
    disk.write(at, &block)
}

/// Changes the first byte of a block.
pub(crate) fn alter(disk: &mut MemoryDisk, at: u32, byte: u8) -> Result<(), DiskFault> {
    let mut block = [0; 1024];
    if at >= disk.blocks() {
        return Err(DiskFault);
    }
    disk.read(at, &mut block)?;
    block[0] = byte;
    disk.write(at, &block)
}

// A record of an entity that knows itself alone, whose blob is in this block.
fn record(entity: Entity, version: u64, blob: &[u8], block: u32) -> Rec {
    let mut stamp = [0; 64];
    stamp[entity.number() as usize] = version;
    Rec {
        entity,
        version,
        stamp,
        length: blob.len().min(1024) as u32,
        blocks: [block, 0, 0, 0, 0, 0, 0, 0],
    }
}

// Puts the body of a record into a slot of area A, and opens its gate.
fn put_record(disk: &mut MemoryDisk, slot: u32, rec: &Rec) -> Result<(), DiskFault> {
    if slot > 99 {
        return Err(DiskFault);
    }
    put(disk, 5 + 2 * slot, &body_block(rec))?;
    put(disk, 6 + 2 * slot, &open_gate())
}

// A disk of so many blocks, with an image that has no record, made by three writes. It keeps 600 writes and syncs.
fn without_records(alloc: Global, blocks: u32, fails: &[u64]) -> Result<MemoryDisk, Fail> {
    let mut disk = MemoryDisk::new(alloc, blocks, 600, fails.to_vec(alloc)?)?;
    put(&mut disk, 0, &superblock(blocks))?;
    put(&mut disk, 1, &header_block(1))?;
    put(&mut disk, 2, &open_gate())?;
    Ok(disk)
}

/// A disk of so many blocks, with an image of a container `a`, whose pages all have a block, and a locus `l` in it. The first word of `a` is 5, all
/// others are 0.
pub(crate) fn with_pages(
    alloc: Global,
    blocks: u32,
    pages: u8,
    fails: &[u64],
) -> Result<MemoryDisk, Fail> {
    let mut disk = without_records(alloc, blocks, fails)?;
    let container = container(alloc, pages)?;
    put_record(&mut disk, 0, &record(Entity::ATLAS, 1, &ATLAS, 2565))?;
    put_record(&mut disk, 1, &record(Entity::of(1), 2, &container, 2566))?;
    put_record(
        &mut disk,
        2,
        &record(Entity::of(41), 3, &locus(2, 2, 5), 2567),
    )?;
    put(&mut disk, 2565, &ATLAS)?;
    put(&mut disk, 2566, &container)?;
    put(&mut disk, 2567, &locus(2, 2, 5))?;
    put(&mut disk, PAGES_AT, &[5])?;
    Ok(disk)
}

// The block of a page of `a`, whose words count up from the tag 7, but for one.
fn counted(page: u64, place: usize, word: u64) -> [u8; 1024] {
    let mut words = [0; 128];
    for at in 0..128 {
        words[at] = 7u64
            .wrapping_add(page.wrapping_mul(128))
            .wrapping_add(at as u64);
    }
    if place < 128 {
        words[place] = word;
    }
    block_with(&words)
}

// The container `a` in that image.
fn container_with_regions(alloc: Global) -> Result<Vec<u8>, AllocError> {
    let mut bytes = FRONT.to_vec(alloc)?;
    bytes.extend_from_slice(&CODE)?;
    bytes.extend_from_slice(&BACK)?;
    Ok(bytes)
}

// The record of `a` in that image: it knows the atlas's version and that of `c`.
fn record_of_a(blob: &[u8]) -> Rec {
    let mut rec = record(Entity::of(1), 4, blob, 2566);
    rec.stamp[0] = 3;
    rec.stamp[2] = 2;
    rec
}

/// A disk of 2,600 blocks, with an image of a container `a` of four pages, two of which have a block, with code, an entry, a region of the container
/// `c` and a capability on it, and a locus `l`. In `a` the word 0 is 5 and the word 257 is 9, all others are the supplier's.
pub(crate) fn with_regions(alloc: Global) -> Result<MemoryDisk, Fail> {
    let mut disk = without_records(alloc, 2600, &[])?;
    let container = container_with_regions(alloc)?;
    put_record(&mut disk, 0, &record(Entity::ATLAS, 3, &ATLAS_OF_TWO, 2565))?;
    put_record(&mut disk, 1, &record_of_a(&container))?;
    put_record(&mut disk, 2, &record(Entity::of(2), 2, &PLAIN, 2567))?;
    put_record(
        &mut disk,
        3,
        &record(Entity::of(41), 5, &locus(0, 0, 0), 2568),
    )?;
    put(&mut disk, 2565, &ATLAS_OF_TWO)?;
    put(&mut disk, 2566, &container)?;
    put(&mut disk, 2567, &PLAIN)?;
    put(&mut disk, 2568, &locus(0, 0, 0))?;
    put(&mut disk, 2569, &counted(0, 0, 5))?;
    put(&mut disk, 2570, &counted(2, 1, 9))?;
    Ok(disk)
}

/// A disk of 2,600 blocks, with an image of forty containers of one page, whose blobs stand in one block.
pub(crate) fn with_forty(alloc: Global) -> Result<MemoryDisk, Fail> {
    let mut disk = without_records(alloc, 2600, &[])?;
    let atlas = atlas_of_forty(alloc)?;
    put_record(&mut disk, 0, &record(Entity::ATLAS, 1, &atlas, 2565))?;
    for number in 1..=40 {
        let rec = record(Entity::of(number), 1, &PLAIN, 2566);
        put_record(&mut disk, number as u32, &rec)?;
    }
    put(&mut disk, 2565, &atlas)?;
    put(&mut disk, 2566, &PLAIN)?;
    Ok(disk)
}
