//! The cells of an image without a record, and of one of an atlas, a container and a locus.
use base_types::{Entity, Rec};
use cell_states::{Cell, Part};
use edge_disk::{Disk, DiskFault, MemoryDisk};
use image_blocks::{body_block, header_block, open_gate, superblock};
use image_chosen::read_parts;
use log_reading::{ReadingFault, read_log};
use std::alloc::Global;
use std::test::Fail;
use table_opened::cells_of;

/// Names a container `a` and a locus `l`.
const ATLAS: [u8; 9] = [0, 1, 1, 0x61, 1, 1, 0x6c, 0, 0];

/// Two pages, in the blocks 2,568 and 2,570, and a tag of 7.
const CONTAINER: [u8; 27] = [
    1, 2, 0, 7, 0, 0, 0, 0, 0, 0, 0, 0, 0, 0, 0, 255, 0, 0, 0, 8, 10, 0, 0, 10, 10, 0, 0,
];

// Writes bytes at the front of a block, where there is one.
fn put(disk: &mut MemoryDisk, at: u32, bytes: &[u8]) -> Result<(), DiskFault> {
    let mut block = [0; 1024];
    if at >= disk.blocks() || bytes.len() > 1024 {
        return Err(DiskFault);
    }
    block[..bytes.len()].copy_from_slice(bytes);
    disk.write(at, &block)
}

// An image without a record.
fn empty_image(alloc: Global) -> Result<MemoryDisk, Fail> {
    let mut disk = MemoryDisk::new(alloc, 2600, 20, Vec::new(alloc))?;
    put(&mut disk, 0, &superblock(2600))?;
    put(&mut disk, 1, &header_block(1))?;
    put(&mut disk, 2, &open_gate())?;
    Ok(disk)
}

// Puts the third record of an entity, whose blob is in this block, at a slot.
fn put_record(
    disk: &mut MemoryDisk,
    slot: u32,
    entity: Entity,
    block: u32,
    blob: &[u8],
) -> Result<(), DiskFault> {
    if slot > 8 || blob.len() > 1024 {
        return Err(DiskFault);
    }
    let mut stamp = [0; 64];
    stamp[entity.number() as usize] = 3;
    let rec = Rec {
        entity,
        version: 3,
        stamp,
        length: blob.len() as u32,
        blocks: [block, 0, 0, 0, 0, 0, 0, 0],
    };
    put(disk, block, blob)?;
    put(disk, 5 + 2 * slot, &body_block(&rec))?;
    put(disk, 6 + 2 * slot, &open_gate())
}

fn cells(alloc: Global, disk: &mut MemoryDisk) -> Result<Vec<Cell>, ReadingFault> {
    let log = read_log(alloc, disk)?;
    let parts = read_parts(alloc, disk, &log)?;
    match cells_of(alloc, parts, 2, 9) {
        Ok(cells) => Ok(cells),
        Err(_) => Err(ReadingFault::Memory),
    }
}

fn is_born(cell: &Cell) -> bool {
    match &cell.part {
        Part::Atlas(_) => true,
        Part::Container(storage) => storage.head.is_some(),
        Part::Locus(locus) => locus.is_some(),
    }
}

#[test]
fn nothing_but_the_atlas_is_born(rt: HostRuntime) -> Result<(), Fail> {
    let mut disk = empty_image(rt.alloc())?;
    match cells(rt.alloc(), &mut disk) {
        Ok(cells) => {
            assert!(rt; cells.len() == 64);
            for (number, cell) in cells.iter().enumerate() {
                assert!(rt; is_born(cell) == (number == 0));
                assert!(rt; cell.clock.version == 0);
                assert!(rt; cell.left == 9);
            }
        }
        Err(fault) => assert!(rt; false, "{fault:?}"),
    }
    Ok(())
}

#[test]
fn chosen_parts_are_in_their_cells(rt: HostRuntime) -> Result<(), Fail> {
    let mut disk = empty_image(rt.alloc())?;
    let mut locus = [0; 77];
    locus[0] = 2;
    locus[6] = 1;
    put_record(&mut disk, 0, Entity::of(1), 2565, &CONTAINER)?;
    put_record(&mut disk, 1, Entity::ATLAS, 2566, &ATLAS)?;
    put_record(&mut disk, 2, Entity::of(41), 2567, &locus)?;
    match cells(rt.alloc(), &mut disk) {
        Ok(cells) => {
            for (number, cell) in cells.iter().enumerate() {
                let chosen = number == 0 || number == 1 || number == 41;
                assert!(rt; is_born(cell) == chosen);
                let version = if chosen { 3 } else { 0 };
                assert!(rt; cell.clock.version == version);
                assert!(rt; cell.wish.newest == version);
                if let Part::Container(storage) = &cell.part {
                    let block = if chosen { 2570 } else { 0 };
                    assert!(rt; storage.memory.table()[1] == block);
                }
            }
        }
        Err(fault) => assert!(rt; false, "{fault:?}"),
    }
    Ok(())
}
