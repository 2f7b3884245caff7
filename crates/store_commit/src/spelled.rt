// The bytes of a blob as its blocks.
ghost use Rattle.std.specs.Prelude.{◌≡◌, ◌≤◌, ◌-◌, ◌++◌, length, replicate, take};
ghost use Rattle.store_books.specs.image_facts.Bodies.{blocks_for};
ghost use Rattle.store_books.specs.image_facts.Layout.{most_length};
ghost use Rattle.store_commit.specs.BlobBytes.{HoldsBytes};

use edge_disk::BLOCK_BYTES;

// The bytes as a block, filled up with zeros.
fn filled_up(bytes: &[u8]) -> [u8; 1024]
    requires { length bytes.now ≤ BLOCK_BYTES }
    ensures { result ≡ bytes.now ++ replicate (BLOCK_BYTES - length bytes.now) 0 }
{
    let mut block = [0; 1024];
    block[..bytes.len()].copy_from_slice(bytes);
    block
}

/// The bytes of a blob, up to 8,192, as its blocks: as many as they need, of which the last is filled up with zeros. Behind them
/// are blocks of zeros.
pub fn spelled_blocks(bytes: &[u8]) -> [[u8; 1024]; 8]
    requires { length bytes.now ≤ most_length }
    ensures { HoldsBytes bytes.now (take (blocks_for (length bytes.now)) result) }
{
    let mut blocks = [[0; 1024]; 8];
    for i in 0..(bytes.len() + 1023) / 1024 {
        let end = (1024 * i + 1024).min(bytes.len());
        blocks[i] = filled_up(&bytes[1024 * i..end]);
    }
    blocks
}
