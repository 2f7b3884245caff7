// The superblock, written and read.
ghost use Rattle.std.specs.Prelude.{◌≡◌, ◌≤◌, None, Some, IfOk, IfErr};
ghost use Rattle.image_facts.specs.Bodies.{number_at};
ghost use Rattle.image_facts.specs.Checks.{superblock_fault};
ghost use Rattle.image_facts.specs.Layout.{least_blocks, superblock as superblock_with};

use crate::blocks::u32_at;
use crate::faults::{first_place, nonzero_from, unless_at};
use crate::{LEAST_BLOCKS, MOST_BLOCKS};

/// The superblock of an image of so many blocks: the 8 bytes `GRASSHOP`, the format's number 1 and the number of blocks in
/// 4 bytes each, and zeros.
pub fn superblock(blocks: u32) -> [u8; 1024]
    ensures { result ≡ superblock_with blocks }
{
    let n = blocks.to_le_bytes();
    let front = [
        b'G', b'R', b'A', b'S', b'S', b'H', b'O', b'P', 1, 0, 0, 0, n[0], n[1], n[2], n[3],
    ];
    let mut block = [0; 1024];
    block[..16].copy_from_slice(&front);
    block
}

/// How many blocks the image has, by its superblock on a disk of so many; or the superblock's first bad byte.
pub fn read_superblock(block: &[u8; 1024], blocks: u32) -> Result<u32, u16>
    ensures good { IfOk result (λ count. (superblock_fault blocks block.now ≡ None) × (count ≡ number_at 12 4 block.now)) }
    ensures count { IfOk result (λ count. (least_blocks ≤ count) × (count ≤ blocks)) }
    ensures bad { IfErr result (λ place. superblock_fault blocks block.now ≡ Some place) }
{
    let count = u32_at(block, 12);
    let bad = first_place(&[
        unless_at(block[..8] == b"GRASSHOP"[..], 0),
        unless_at(u32_at(block, 8) == 1, 8),
        unless_at(
            LEAST_BLOCKS <= count && count <= MOST_BLOCKS && count <= blocks,
            12,
        ),
        nonzero_from(block, 16),
    ]);
    match bad {
        Some(place) => Err(place),
        None => Ok(count),
    }
}
