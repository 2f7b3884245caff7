//! The atlas of two names in 9 bytes, whole and changed.
use base_bytes::Blob;
use base_types::{Entity, Kind, Rec};
use edge_disk::{Disk, DiskFault, MemoryDisk};
use image_blobs::load;
use image_blocks::Bad;
use image_fits::ChosenPart;
use std::test::Fail;

/// The block of the blob, and that of the body.
const AT: u32 = 2;

const BODY: u32 = 1;

/// A container `a` and a locus `l`.
const ATLAS: [u8; 9] = [0, 1, 1, 0x61, 1, 1, 0x6c, 0, 0];

fn record(length: u32) -> Rec {
    Rec {
        entity: Entity::ATLAS,
        version: 2,
        stamp: [0; 64],
        length,
        blocks: [AT, 0, 0, 0, 0, 0, 0, 0],
    }
}

// What is told of a blob of one block.
fn told_by(
    disk: &mut MemoryDisk,
    rec: &Rec,
    room: &mut Blob,
) -> Result<Result<ChosenPart, Bad>, DiskFault> {
    let blocks = disk.blocks();
    if rec.length < 1 {
        return Err(DiskFault);
    }
    if rec.length > 1024 {
        return Err(DiskFault);
    }
    if rec.blocks[0] >= blocks {
        return Err(DiskFault);
    }
    load(disk, rec, BODY, room)
}

// The first bad place of the atlas with this byte at this place, and so long.
fn bad_at(rt: HostRuntime, place: usize, byte: u8, length: u32) -> Result<Option<Bad>, Fail> {
    let mut disk = MemoryDisk::new(rt.alloc(), 4, 4, Vec::new(rt.alloc()))?;
    let mut room = Blob::new(rt.alloc())?;
    let mut block = [0; 1024];
    block[..9].copy_from_slice(&ATLAS);
    if place < 1024 {
        block[place] = byte;
    }
    if AT < disk.blocks() {
        disk.write(AT, &block)?;
    }
    match told_by(&mut disk, &record(length), &mut room)? {
        Ok(_) => Ok(None),
        Err(bad) => Ok(Some(bad)),
    }
}

#[test]
fn an_atlas_is_loaded_or_its_bad_place_is_told(rt: HostRuntime) -> Result<(), Fail> {
    let here = |place| Some(Bad { block: AT, place });
    let of_body = Some(Bad {
        block: BODY,
        place: 4,
    });
    assert!(rt; bad_at(rt, 0, 0, 9)? == None);
    assert!(rt; bad_at(rt, 0, 3, 9)? == here(0));
    assert!(rt; bad_at(rt, 1, 41, 9)? == here(1));
    assert!(rt; bad_at(rt, 0, 0, 8)? == here(8));
    assert!(rt; bad_at(rt, 0, 0, 10)? == of_body);
    assert!(rt; bad_at(rt, 100, 5, 9)? == here(100));
    assert!(rt; bad_at(rt, 1023, 1, 9)? == here(1023));
    Ok(())
}

#[test]
fn a_failed_read_is_told(rt: HostRuntime) -> Result<(), Fail> {
    let mut disk = MemoryDisk::new(rt.alloc(), 4, 4, [1].to_vec(rt.alloc())?)?;
    let mut room = Blob::new(rt.alloc())?;
    assert!(rt; told_by(&mut disk, &record(9), &mut room).is_err());
    // The next read is of zeros: an atlas of no names has 5 of them.
    match told_by(&mut disk, &record(9), &mut room)? {
        Ok(part) => assert!(rt; false, "{part:?}"),
        Err(bad) => assert!(rt;
            bad == Bad {
                block: BODY,
                place: 4
            }
        ),
    }
    Ok(())
}
