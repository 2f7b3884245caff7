//! Images made by hand, opened: without a record, and with one of the atlas.
use base_types::{Entity, Rec};
use edge_disk::{Disk, DiskFault, MemoryDisk};
use image_blocks::{body_block, header_block, open_gate, superblock};
use open_image::open_parts;
use std::alloc::Global;
use std::test::Fail;
use store_snapshots::OpenWhy;

/// An atlas that names nobody: its kind, no container, no locus, no edge.
const ATLAS: [u8; 5] = [0; 5];

// Writes a block, where there is one.
fn put(disk: &mut MemoryDisk, at: u32, block: &[u8; 1024]) -> Result<(), DiskFault> {
    if at >= disk.blocks() {
        return Err(DiskFault);
    }
    disk.write(at, block)
}

// The first record of the atlas, in block 2,565.
fn record() -> Rec {
    let mut stamp = [0; 64];
    stamp[0] = 1;
    Rec {
        entity: Entity::ATLAS,
        version: 1,
        stamp,
        length: ATLAS.len() as u32,
        blocks: [2565, 0, 0, 0, 0, 0, 0, 0],
    }
}

// A disk of 2,600 blocks with an image that has no record, made by three writes.
fn image(alloc: Global, fails: &[u64]) -> Result<MemoryDisk, Fail> {
    let mut disk = MemoryDisk::new(alloc, 2600, 200, fails.to_vec(alloc)?)?;
    put(&mut disk, 0, &superblock(2600))?;
    put(&mut disk, 1, &header_block(1))?;
    put(&mut disk, 2, &open_gate())?;
    Ok(disk)
}

#[test]
fn an_image_without_a_record_is_opened(rt: HostRuntime) -> Result<(), Fail> {
    let (store, cells) = match open_parts(rt.alloc(), image(rt.alloc(), &[])?, 1, 10) {
        Ok(opened) => opened,
        Err(_) => return Err(DiskFault.into()),
    };
    assert!(rt; cells.len() == 64);
    assert!(rt; store.recs().len() == 0);
    assert!(rt; store.free() == 35);
    Ok(())
}

#[test]
fn the_chosen_record_is_kept(rt: HostRuntime) -> Result<(), Fail> {
    let mut disk = image(rt.alloc(), &[])?;
    put(&mut disk, 5, &body_block(&record()))?;
    put(&mut disk, 6, &open_gate())?;
    put(&mut disk, 2565, &[0; 1024])?;
    let (store, cells) = match open_parts(rt.alloc(), disk, 1, 10) {
        Ok(opened) => opened,
        Err(_) => return Err(DiskFault.into()),
    };
    assert!(rt; store.recs() == [record()].as_slice());
    assert!(rt; store.free() == 34);
    if let Some(atlas) = cells.first() {
        assert!(rt; atlas.clock.version == 1);
    }
    Ok(())
}

#[test]
fn a_call_that_fails_hands_the_disk_back(rt: HostRuntime) -> Result<(), Fail> {
    // Three writes make the image, the sync is the fourth call, and the log and no blob are read behind it.
    for &(failing, why) in &[
        (4, OpenWhy::WriteFault),
        (5, OpenWhy::ReadFault),
        (14, OpenWhy::WriteFault),
    ] {
        let fault = match open_parts(rt.alloc(), image(rt.alloc(), &[failing])?, 1, 10) {
            Ok(_) => return Err(DiskFault.into()),
            Err(fault) => fault,
        };
        assert!(rt; fault.why == why, "call {failing}");
    }
    Ok(())
}
