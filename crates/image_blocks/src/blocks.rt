// Gates and headers, and the numbers in blocks.
ghost use Rattle.std.specs.Prelude.{◌≡◌, ◌+◌, ◌≤◌, ◌==◌, None, Some, IfOk, IfErr};
ghost use Rattle.image_facts.specs.Bodies.{number_at};
ghost use Rattle.image_facts.specs.Checks.{header_fault};
ghost use Rattle.image_facts.specs.Layout.{first_number, closed_gate as closed_block, header_block as header_with, last_number, open_gate as open_block};

use crate::LAST_NUMBER;
use crate::faults::{first_place, nonzero_from, unless_at};
use base_bytes::{get_u32, get_u64, put_u64};
use edge_disk::BLOCK_BYTES;

// The number of 32 bits at a place.
pub(crate) fn u32_at(block: &[u8; 1024], at: usize) -> u32
    requires { at + 4 ≤ BLOCK_BYTES }
    ensures { result ≡ number_at at 4 block.now }
{
    get_u32(block, at).unwrap()
}

// The number of 64 bits at a place.
pub(crate) fn u64_at(block: &[u8; 1024], at: usize) -> u64
    requires { at + 8 ≤ BLOCK_BYTES }
    ensures { result ≡ number_at at 8 block.now }
{
    get_u64(block, at).unwrap()
}

/// An open gate: the number 1 in 8 bytes, and zeros.
pub fn open_gate() -> [u8; 1024]
    ensures { result ≡ open_block }
{
    let mut block = [0; 1024];
    block[0] = 1;
    block
}

/// A closed gate: zeros.
pub fn closed_gate() -> [u8; 1024]
    ensures { result ≡ closed_block }
{
    [0; 1024]
}

/// Whether a block reads as an open gate: whether its first 8 bytes are the number 1.
pub fn is_open(block: &[u8; 1024]) -> bool
    ensures { result ≡ (first_number block.now == 1) }
{
    get_u64(block, 0).unwrap() == 1
}

/// An area's header: its epoch in 8 bytes, and zeros.
pub fn header_block(epoch: u64) -> [u8; 1024]
    ensures { result ≡ header_with epoch }
{
    let mut block = [0; 1024];
    put_u64(&mut block, 0, epoch).unwrap();
    block
}

/// The epoch with which a header begins, whatever follows it.
pub fn epoch_of(block: &[u8; 1024]) -> u64
    ensures { result ≡ first_number block.now }
{
    u64_at(block, 0)
}

/// The epoch of a header, from 1 to 2^62; or its first bad byte.
pub fn read_header(block: &[u8; 1024]) -> Result<u64, u16>
    ensures good { IfOk result (λ epoch. (header_fault block.now ≡ None) × (epoch ≡ first_number block.now) × (epoch ≤ last_number)) }
    ensures bad { IfErr result (λ place. header_fault block.now ≡ Some place) }
{
    let epoch = epoch_of(block);
    let bad = first_place(&[
        unless_at(1 <= epoch && epoch <= LAST_NUMBER, 0),
        nonzero_from(block, 8),
    ]);
    match bad {
        Some(place) => Err(place),
        None => Ok(epoch),
    }
}
