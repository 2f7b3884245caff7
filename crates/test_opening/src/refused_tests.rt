//! Images that are refused, each by one byte. In the tables stand a block, a place and the byte that is put there, and block and place of the
//! first bad place that is told then.
use crate::images::{alter, fault_of, of_three};
use image_blocks::Bad;
use std::alloc::Global;
use std::process::Abort;
use std::test::Fail;
use store_snapshots::OpenWhy;

// The first bad place of the image of three records, with this byte in the place of another.
fn bad_with(alloc: Global, at: u32, in_block: usize, byte: u8) -> Result<Option<Bad>, Fail> {
    let mut disk = of_three(alloc)?;
    alter(&mut disk, at, in_block, byte)?;
    match fault_of(alloc, disk) {
        Some(OpenWhy::Foreign(bad)) => Ok(Some(bad)),
        _ => Ok(None),
    }
}

// Each byte of a table is told by its first bad place.
fn are_told(
    rt: &impl Abort,
    alloc: Global,
    table: &[(u32, usize, u8, u32, u16)],
) -> Result<(), Fail> {
    for (at, in_block, byte, block, place) in table {
        let bad = Bad {
            block: *block,
            place: *place,
        };
        assert!(rt;
            bad_with(alloc, *at, *in_block, *byte)? == Some(bad),
            "block {at}, byte {in_block}"
        );
    }
    Ok(())
}

#[test]
fn a_bad_superblock_is_told(rt: HostRuntime) -> Result<(), Fail> {
    // The name, the format, the number of blocks, zeros.
    let table = [
        (0, 7, 0x51, 0, 0),
        (0, 8, 2, 0, 8),
        (0, 13, 0, 0, 12),
        (0, 1023, 1, 0, 1023),
    ];
    are_told(&rt, rt.alloc(), &table)
}

#[test]
fn a_bad_area_is_told(rt: HostRuntime) -> Result<(), Fail> {
    // No gate is open; the epoch is 0; zeros behind it.
    let table = [(2, 0, 0, 2, 0), (1, 0, 0, 1, 0), (1, 8, 1, 1, 8)];
    are_told(&rt, rt.alloc(), &table)
}

#[test]
fn two_open_areas_of_one_epoch_are_told(rt: HostRuntime) -> Result<(), Fail> {
    let mut disk = of_three(rt.alloc())?;
    alter(&mut disk, 3, 0, 1)?;
    alter(&mut disk, 4, 0, 1)?;
    let bad = Bad { block: 3, place: 0 };
    assert!(rt; fault_of(rt.alloc(), disk) == Some(OpenWhy::Foreign(bad)));
    Ok(())
}

#[test]
fn a_bad_body_is_told(rt: HostRuntime) -> Result<(), Fail> {
    // The entity, the length, the version, the entity's own component, another's, the blob's block, one that isn't needed, zeros.
    let table = [
        (5, 1, 1, 5, 0),
        (5, 6, 1, 5, 4),
        (5, 8, 0, 5, 8),
        (5, 24, 2, 5, 24),
        (7, 39, 128, 7, 32),
        (9, 529, 0, 9, 528),
        (5, 533, 11, 5, 532),
        (5, 560, 1, 5, 560),
    ];
    are_told(&rt, rt.alloc(), &table)
}

#[test]
fn a_bad_blob_is_told(rt: HostRuntime) -> Result<(), Fail> {
    // Where no spelling goes on: the atlas's kind, the container's, the locus's condition. A byte behind the blob.
    let table = [
        (2566, 0, 1, 2566, 0),
        (2565, 0, 2, 2565, 0),
        (2567, 5, 3, 2567, 5),
        (2566, 9, 1, 2566, 9),
    ];
    are_told(&rt, rt.alloc(), &table)
}

#[test]
fn parts_that_do_not_fit_are_told(rt: HostRuntime) -> Result<(), Fail> {
    // No atlas in the log; no locus, which the atlas names; a host that isn't born; a page in another page's block, and in a blob's.
    let table = [
        (8, 0, 0, 5, 0),
        (10, 0, 0, 7, 0),
        (2567, 6, 2, 9, 0),
        (2565, 23, 8, 5, 0),
        (2565, 19, 6, 5, 0),
    ];
    are_told(&rt, rt.alloc(), &table)
}
