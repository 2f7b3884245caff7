//! Disks that hold no image, and images of which a byte is another.
use crate::scripts::FIVE;
use crate::{copy_of, disk_of, put, run};
use command_outcomes::Status;
use edge_disk::{Disk, MemoryDisk};
use std::alloc::Global;
use std::test::Fail;

#[test]
fn a_disk_of_zeros_is_foreign(rt: HostRuntime) -> Result<(), Fail> {
    let alloc = rt.alloc();
    for &blocks in &[0, 8, 2700] {
        for &words in &[["show"], ["report"], ["run"]] {
            let (lines, outcome) = put(alloc, &words, FIVE, disk_of(alloc, blocks, &[])?)?;
            assert!(rt; lines.as_str() == "fault 4 0 0\n");
            assert!(rt; matches!(outcome.status, Status::Foreign { block: 0, place: 0 }));
        }
    }
    Ok(())
}

// Where a byte stands: in a block, or in the first block of the blob of the record in this slot of area B.
#[derive(Clone, Copy)]
enum Spot {
    Block(u32),
    Blob(u32),
}

use Spot::{Blob, Block};

// The block that a spot names on this disk.
fn block_of(disk: &mut MemoryDisk, spot: Spot) -> Result<u32, Fail> {
    let slot = match spot {
        Block(block) => return Ok(block),
        Blob(slot) => slot,
    };
    let body = slot.saturating_mul(2).saturating_add(1285);
    let body = read(disk, body)?;
    Ok(u32::from_le_bytes([body[528], body[529], body[530], body[531]]))
}

fn read(disk: &mut MemoryDisk, at: u32) -> Result<[u8; 1024], Fail> {
    let mut block = [0; 1024];
    if at >= disk.blocks() {
        return Err(Fail::from("a block of the disk"));
    }
    disk.read(at, &mut block).ok().ok_or("a read")?;
    Ok(block)
}

// Makes a byte of a block another.
fn poke(disk: &mut MemoryDisk, spot: Spot, place: u16, value: u8) -> Result<(), Fail> {
    let at = block_of(disk, spot)?;
    let mut block = read(disk, at)?;
    *block.get_mut(place as usize).ok_or("a place of a block")? = value;
    if at >= disk.blocks() {
        return Err(Fail::from("a block of the disk"));
    }
    disk.write(at, &block).ok().ok_or("a write")?;
    Ok(())
}

// A byte with another value, and the first bad place that this makes.
type Change = (Spot, u16, u8, Spot, u16);

// The image of a run of five instructions: area B has three records, of the atlas, of container `a` and of locus `l`.
const CHANGES: &[Change] = &[
    // The eight bytes, the format, the number of blocks, and the zeros of the superblock.
    (Block(0), 0, 0, Block(0), 0),
    (Block(0), 7, b'Q', Block(0), 0),
    (Block(0), 8, 0, Block(0), 8),
    (Block(0), 13, 0, Block(0), 12),
    (Block(0), 14, 1, Block(0), 12),
    (Block(0), 1023, 1, Block(0), 1023),
    // No area is open; the epoch of the open one, and the zeros of its header.
    (Block(4), 0, 0, Block(2), 0),
    (Block(3), 0, 0, Block(3), 0),
    (Block(3), 7, 0x40, Block(3), 0),
    (Block(3), 8, 1, Block(3), 8),
    // The first body: its entity, length, version, stamp, block numbers and zeros.
    (Block(1285), 0, 200, Block(1285), 0),
    (Block(1285), 4, 0, Block(1285), 4),
    (Block(1285), 6, 1, Block(1285), 4),
    (Block(1285), 8, 0, Block(1285), 8),
    (Block(1285), 16, 9, Block(1285), 16),
    (Block(1285), 31, 0x80, Block(1285), 24),
    (Block(1285), 529, 0, Block(1285), 528),
    (Block(1285), 532, 1, Block(1285), 532),
    (Block(1285), 560, 1, Block(1285), 560),
    // The atlas's blob: its kind, the number of containers, a name, and the zeros behind it; its length, if less or more.
    (Blob(0), 0, 1, Blob(0), 0),
    (Blob(0), 1, 41, Blob(0), 1),
    (Blob(0), 3, b'1', Blob(0), 3),
    (Blob(0), 9, 1, Blob(0), 9),
    (Block(1285), 4, 8, Blob(0), 8),
    (Block(1285), 4, 10, Block(1285), 4),
    // The locus's host is not born.
    (Blob(2), 6, 2, Block(1289), 0),
    // The blobs stand in the lowest blocks of the pool, in the order of the records.
    (Block(2565), 0, 9, Block(2565), 0),
    (Block(2567), 6, 2, Block(1289), 0),
];

// What a command puts for an image with one byte changed, and what it ought to put.
fn lines_for(
    alloc: Global,
    image: &MemoryDisk,
    words: &[&str],
    change: Change,
) -> Result<(String, String), Fail> {
    let (spot, place, value, bad, at) = change;
    let mut disk = copy_of(image)?;
    let block = block_of(&mut disk, bad)?;
    poke(&mut disk, spot, place, value)?;
    let (lines, _) = put(alloc, words, FIVE, disk)?;
    Ok((lines, format!(in alloc; "fault 4 {block} {at}\n")?))
}

#[test]
fn a_changed_byte_is_told_by_the_first_bad_place(rt: HostRuntime) -> Result<(), Fail> {
    let alloc = rt.alloc();
    let (_, outcome) = run(alloc, FIVE)?;
    for &change in CHANGES {
        for &words in &[["show"], ["run"]] {
            let (lines, wanted) = lines_for(alloc, &outcome.disk, &words, change)?;
            assert!(rt; lines.as_str() == wanted.as_str());
        }
    }
    Ok(())
}

#[test]
fn two_open_areas_of_one_epoch_are_foreign(rt: HostRuntime) -> Result<(), Fail> {
    let alloc = rt.alloc();
    let (_, outcome) = run(alloc, FIVE)?;
    let mut disk = outcome.disk;
    poke(&mut disk, Block(1), 0, 2)?;
    poke(&mut disk, Block(2), 0, 1)?;
    let (lines, _) = put(alloc, &["show"], b"", disk)?;
    assert!(rt; lines.as_str() == "fault 4 3 0\n");
    Ok(())
}

#[test]
fn a_log_that_a_gate_cuts_off_means_less(rt: HostRuntime) -> Result<(), Fail> {
    let alloc = rt.alloc();
    let (_, outcome) = run(alloc, FIVE)?;
    let mut disk = outcome.disk;
    // Without the locus's record no other is chosen: each knows of its birth.
    poke(&mut disk, Block(1290), 0, 0)?;
    let (lines, outcome) = put(alloc, &["show"], b"", disk)?;
    assert!(rt; lines.as_str() == "");
    assert!(rt; matches!(outcome.status, Status::Done));
    Ok(())
}
