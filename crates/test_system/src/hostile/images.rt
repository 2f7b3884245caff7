//! Images of which bytes are changed.
use edge_disk::{Disk, MemoryDisk};
use std::test::Fail;

/// Where a byte stands: in a block, or in the first or second block of the blob of the record in this slot of area B.
#[derive(Clone, Copy)]
pub(crate) enum Spot {
    Block(u32),
    Blob(u32),
    Second(u32),
}

use Spot::{Blob, Block, Second};

/// A change: a byte at a place, four bytes as they stand elsewhere, or a whole block as another.
#[derive(Clone, Copy)]
pub(crate) enum Poke {
    Byte(Spot, u16, u8),
    Like(Spot, u16, Spot, u16),
    Whole(Spot, Spot),
}

fn read(disk: &mut MemoryDisk, at: u32) -> Result<[u8; 1024], Fail> {
    let mut block = [0; 1024];
    if at >= disk.blocks() {
        return Err(Fail::from("a block of the disk"));
    }
    disk.read(at, &mut block).ok().ok_or("a read")?;
    Ok(block)
}

fn write(disk: &mut MemoryDisk, at: u32, block: &[u8; 1024]) -> Result<(), Fail> {
    if at >= disk.blocks() {
        return Err(Fail::from("a block of the disk"));
    }
    disk.write(at, block).ok().ok_or("a write")?;
    Ok(())
}

// Four bytes of a block.
fn word(block: &[u8; 1024], place: u16) -> Result<[u8; 4], Fail> {
    let place = usize::from(place);
    if place > 1020 {
        return Err(Fail::from("four bytes of a block"));
    }
    Ok([
        block[place],
        block[place + 1],
        block[place + 2],
        block[place + 3],
    ])
}

/// The block that a spot names on this disk.
pub(crate) fn block_of(disk: &mut MemoryDisk, spot: Spot) -> Result<u32, Fail> {
    let (slot, place) = match spot {
        Block(block) => return Ok(block),
        Blob(slot) => (slot, 528),
        Second(slot) => (slot, 532),
    };
    let body = read(disk, slot.saturating_mul(2).saturating_add(1285))?;
    Ok(u32::from_le_bytes(word(&body, place)?))
}

/// Puts bytes into a block from a place on.
pub(crate) fn set_bytes(
    disk: &mut MemoryDisk,
    spot: Spot,
    place: u16,
    bytes: &[u8],
) -> Result<(), Fail> {
    let at = block_of(disk, spot)?;
    let mut block = read(disk, at)?;
    for (behind, byte) in bytes.iter().enumerate() {
        let at = usize::from(place).saturating_add(behind);
        *block.get_mut(at).ok_or("a place of a block")? = *byte;
    }
    write(disk, at, &block)
}

// Makes one change.
fn change(disk: &mut MemoryDisk, poke: Poke) -> Result<(), Fail> {
    match poke {
        Poke::Byte(spot, place, byte) => set_bytes(disk, spot, place, &[byte]),
        Poke::Like(spot, place, other, there) => {
            let at = block_of(disk, other)?;
            let bytes = word(&read(disk, at)?, there)?;
            set_bytes(disk, spot, place, &bytes)
        }
        Poke::Whole(spot, other) => {
            let (at, there) = (block_of(disk, spot)?, block_of(disk, other)?);
            let block = read(disk, there)?;
            write(disk, at, &block)
        }
    }
}

/// Makes these changes in their order.
pub(crate) fn alter(disk: &mut MemoryDisk, pokes: &[Poke]) -> Result<(), Fail> {
    for poke in pokes {
        change(disk, *poke)?;
    }
    Ok(())
}
