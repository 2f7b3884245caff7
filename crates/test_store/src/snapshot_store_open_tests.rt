use base_bytes::Blob;
use base_types::{Entity, Rec};
use edge_disk::{Disk, DiskFault, MemoryDisk};
use image_blocks::{body_block, header_block, open_gate, superblock};
use std::alloc::Global;
use std::test::Fail;
use store_snapshots::{OpenWhy, Store};

// Writes a block, where there is one.
fn put(disk: &mut MemoryDisk, at: u32, block: &[u8; 1024]) -> Result<(), DiskFault> {
    if at >= disk.blocks() {
        return Err(DiskFault);
    }
    disk.write(at, block)
}

// A record of the atlas with 9 bytes in block 2,565.
fn record() -> Rec {
    let mut stamp = [0; 64];
    stamp[0] = 1;
    Rec {
        entity: Entity::ATLAS,
        version: 1,
        stamp,
        length: 9,
        blocks: [2565, 0, 0, 0, 0, 0, 0, 0],
    }
}

// A disk of 2,600 blocks with an image that has no record, made by three writes.
fn image(alloc: Global, fails: &[u64]) -> Result<MemoryDisk, Fail> {
    let mut disk = MemoryDisk::new(alloc, 2600, 20, fails.to_vec(alloc)?)?;
    put(&mut disk, 0, &superblock(2600))?;
    put(&mut disk, 1, &header_block(1))?;
    put(&mut disk, 2, &open_gate())?;
    Ok(disk)
}

#[test]
fn an_image_without_records_has_all_blocks_free(rt: HostRuntime) -> Result<(), Fail> {
    let store = match Store::open(rt.alloc(), image(rt.alloc(), &[])?) {
        Ok(store) => store,
        Err(_) => return Err(DiskFault.into()),
    };
    assert!(rt; store.recs().len() == 0);
    assert!(rt; store.free() == 35);
    assert!(rt; store.begun() == 1);
    Ok(())
}

#[test]
fn a_record_that_was_found_is_read(rt: HostRuntime) -> Result<(), Fail> {
    let mut disk = image(rt.alloc(), &[])?;
    put(&mut disk, 5, &body_block(&record()))?;
    put(&mut disk, 6, &open_gate())?;
    put(&mut disk, 2565, &[7; 1024])?;
    let mut store = match Store::open(rt.alloc(), disk) {
        Ok(store) => store,
        Err(_) => return Err(DiskFault.into()),
    };
    assert!(rt; store.recs() == [record()].as_slice());
    assert!(rt; store.free() == 0);
    let mut blob = Blob::new(rt.alloc())?;
    // The byte behind the nine isn't 0.
    assert!(rt; store.read_blob(&record(), &mut blob) == Ok(Some(9)));
    assert!(rt; blob.as_slice() == [7; 9].as_slice());
    Ok(())
}

#[test]
fn a_call_that_fails_hands_the_disk_back(rt: HostRuntime) -> Result<(), Fail> {
    // Three writes make the image. The fourth call is the sync, and the next one reads.
    for &(failing, why) in &[(4, OpenWhy::WriteFault), (5, OpenWhy::ReadFault)] {
        let fault = match Store::open(rt.alloc(), image(rt.alloc(), &[failing])?) {
            Ok(_) => return Err(DiskFault.into()),
            Err(fault) => fault,
        };
        assert!(rt; fault.why == why);
        assert!(rt; fault.disk.moments() == 4);
    }
    Ok(())
}
