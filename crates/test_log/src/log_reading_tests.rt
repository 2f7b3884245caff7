use base_types::{Entity, Rec};
use edge_disk::{Disk, DiskFault, MemoryDisk};
use image_blocks::{Area, Bad, body_block, header_block, open_gate, superblock};
use log_reading::{ReadingFault, read_log};
use std::alloc::Global;
use std::test::Fail;

// Writes a block, where there is one.
fn put(disk: &mut MemoryDisk, at: u32, block: &[u8; 1024]) -> Result<(), DiskFault> {
    if at >= disk.blocks() {
        return Err(DiskFault);
    }
    disk.write(at, block)
}

// Changes a byte of a block.
fn alter(disk: &mut MemoryDisk, at: u32, place: usize, byte: u8) -> Result<(), DiskFault> {
    let mut block = [0; 1024];
    if at >= disk.blocks() || place >= 1024 {
        return Err(DiskFault);
    }
    disk.read(at, &mut block)?;
    block[place] = byte;
    disk.write(at, &block)
}

// A record of the atlas with 9 bytes in block 2,565.
fn record(version: u64) -> Rec {
    let mut stamp = [0; 64];
    stamp[0] = version;
    Rec {
        entity: Entity::ATLAS,
        version,
        stamp,
        length: 9,
        blocks: [2565, 0, 0, 0, 0, 0, 0, 0],
    }
}

// A disk of 2,600 blocks with an image whose log has two records, made by eight writes.
fn image(alloc: Global, fails: &[u64]) -> Result<MemoryDisk, Fail> {
    let mut disk = MemoryDisk::new(alloc, 2600, 20, fails.to_vec(alloc)?)?;
    put(&mut disk, 0, &superblock(2600))?;
    put(&mut disk, 1, &header_block(1))?;
    put(&mut disk, 2, &open_gate())?;
    put(&mut disk, 3, &header_block(0))?;
    put(&mut disk, 5, &body_block(&record(1)))?;
    put(&mut disk, 6, &open_gate())?;
    put(&mut disk, 7, &body_block(&record(2)))?;
    put(&mut disk, 8, &open_gate())?;
    Ok(disk)
}

fn fault_of(alloc: Global, disk: &mut MemoryDisk) -> Option<ReadingFault> {
    match read_log(alloc, disk) {
        Ok(_) => None,
        Err(fault) => Some(fault),
    }
}

#[test]
fn a_log_is_read(rt: HostRuntime) -> Result<(), Fail> {
    let mut disk = image(rt.alloc(), &[])?;
    match read_log(rt.alloc(), &mut disk) {
        Ok(log) => {
            assert!(rt; log.blocks == 2600);
            assert!(rt; log.area == Area::A);
            assert!(rt; log.epoch == 1);
            assert!(rt; log.recs.as_slice() == [record(1), record(2)].as_slice());
        }
        Err(fault) => assert!(rt; false, "{fault:?}"),
    }
    // Both gates are open, and B has the greater epoch and no record.
    alter(&mut disk, 4, 0, 1)?;
    alter(&mut disk, 3, 0, 2)?;
    match read_log(rt.alloc(), &mut disk) {
        Ok(log) => assert!(rt; log.area == Area::B && log.epoch == 2 && log.recs.is_empty()),
        Err(fault) => assert!(rt; false, "{fault:?}"),
    }
    let mut failing = image(rt.alloc(), &[10])?;
    assert!(rt; fault_of(rt.alloc(), &mut failing) == Some(ReadingFault::ReadFault));
    Ok(())
}

#[test]
fn the_first_bad_place_is_told(rt: HostRuntime) -> Result<(), Fail> {
    // A block, a place and the byte that is put there, and the bad place that is told.
    let table = [
        (0, 0, 0x48, 0, 0),
        (0, 8, 2, 0, 8),
        (0, 13, 0xff, 0, 12),
        (0, 500, 1, 0, 500),
        (2, 0, 0, 2, 0),
        (1, 0, 0, 1, 0),
        (1, 9, 1, 1, 9),
        (5, 0, 64, 5, 0),
        (5, 5, 33, 5, 4),
        (5, 8, 0, 5, 8),
        (7, 8, 1, 7, 8),
        (5, 16, 3, 5, 16),
        (5, 351, 65, 5, 344),
        (5, 528, 0, 5, 528),
        (5, 532, 1, 5, 532),
        (7, 1000, 1, 7, 1000),
    ];
    for &(at, in_block, byte, block, place) in &table {
        let mut disk = image(rt.alloc(), &[])?;
        alter(&mut disk, at, in_block, byte)?;
        let bad = Bad { block, place };
        assert!(rt;
            fault_of(rt.alloc(), &mut disk) == Some(ReadingFault::Foreign(bad)),
            "block {at}, byte {in_block}"
        );
    }
    let mut none = MemoryDisk::new(rt.alloc(), 0, 0, Vec::new(rt.alloc()))?;
    let bad = Bad { block: 0, place: 0 };
    assert!(rt; fault_of(rt.alloc(), &mut none) == Some(ReadingFault::Foreign(bad)));
    let mut equal = image(rt.alloc(), &[])?;
    alter(&mut equal, 4, 0, 1)?;
    alter(&mut equal, 3, 0, 1)?;
    let bad = Bad { block: 3, place: 0 };
    assert!(rt; fault_of(rt.alloc(), &mut equal) == Some(ReadingFault::Foreign(bad)));
    Ok(())
}
