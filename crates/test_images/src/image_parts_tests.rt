//! The small image read into parts: whole, changed, and read from a disk that fails.
use crate::small_image::{WRITES, alter, cut, image};
use edge_disk::MemoryDisk;
use image_blocks::Bad;
use image_chosen::{ImageParts, page_tables, read_parts};
use log_reading::{ReadingFault, read_log};
use std::alloc::Global;
use std::test::Fail;

fn read(alloc: Global, disk: &mut MemoryDisk) -> Result<ImageParts, ReadingFault> {
    let log = read_log(alloc, disk)?;
    read_parts(alloc, disk, &log)
}

fn fault_of(alloc: Global, disk: &mut MemoryDisk) -> Option<ReadingFault> {
    match read(alloc, disk) {
        Ok(_) => None,
        Err(fault) => Some(fault),
    }
}

#[test]
fn parts_are_read(rt: HostRuntime) -> Result<(), Fail> {
    let mut disk = image(rt.alloc(), &[])?;
    let parts = read(rt.alloc(), &mut disk).ok().ok_or("parts")?;
    assert!(rt; parts.cut == cut());
    let tables = page_tables(rt.alloc(), &parts)?;
    assert!(rt; tables.len() == 64);
    let table = tables.get(1).ok_or("a table")?;
    assert!(rt; (table.block(0), table.block(1)) == (Some(2568), Some(2570)));
    assert!(rt; table.block(2) == None);
    Ok(())
}

#[test]
fn the_first_bad_place_is_told(rt: HostRuntime) -> Result<(), Fail> {
    // A block, a place and the byte that is put there, and the bad place that is told.
    let table = [
        // the atlas's kind; a byte behind the container; a page's block that is another's; a locus that the atlas doesn't name
        (2566, 0, 3, 2566, 0),
        (2565, 100, 5, 2565, 100),
        (2565, 23, 8, 5, 0),
        (12, 0, 1, 11, 0),
    ];
    for &(at, in_block, byte, block, place) in &table {
        let mut disk = image(rt.alloc(), &[])?;
        alter(&mut disk, at, in_block, byte)?;
        let bad = Bad { block, place };
        assert!(rt;
            fault_of(rt.alloc(), &mut disk) == Some(ReadingFault::Foreign(bad)),
            "block {at}, byte {in_block}"
        );
    }
    Ok(())
}

#[test]
fn a_failed_read_is_told(rt: HostRuntime) -> Result<(), Fail> {
    // The log takes thirteen reads, and each blob one.
    for &read in &[14, 15, 16] {
        let mut disk = image(rt.alloc(), &[WRITES + read])?;
        assert!(rt; fault_of(rt.alloc(), &mut disk) == Some(ReadingFault::ReadFault));
    }
    let mut disk = image(rt.alloc(), &[WRITES + 17])?;
    assert!(rt; fault_of(rt.alloc(), &mut disk) == None);
    Ok(())
}
