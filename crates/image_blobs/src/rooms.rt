//! The blocks of a blob, read one behind another.
ghost use Rattle.std.specs.Prelude.{◌≡◌, ◌≤◌, ◌<◌, ◌+◌, ◌*◌, ◌++◌, All, OnOk, length, map};
ghost use Rattle.std.specs.List.{concat};
ghost use Rattle.base_bytes.specs.Blobs.{HasRoom};
ghost use Rattle.edge_disk.specs.Disk.{HasCause};
ghost use Rattle.edge_disk.specs.Image.{block_at};
ghost use Rattle.log_reading.specs.log_facts.Reads.{ReadsOnly};

use base_bytes::Blob;
use edge_disk::{BLOCK_BYTES, Disk, DiskFault};

// Adds the bytes of a block.
fn add_block<D: Disk>(disk: &mut D, at: u32, room: &mut Blob) -> Result<(), DiskFault>
    requires there { at < D.block_count disk.old }
    requires space { HasRoom room.old BLOCK_BYTES }
    ensures bytes { D.tells → OnOk result (room.new ≡ room.old ++ block_at (D.reading disk.old) at) }
    ensures long { OnOk result (length room.new ≡ length room.old + BLOCK_BYTES) }
    ensures cause { HasCause (D.faults disk.old) (D.faults disk.new) result }
    ensures same { ReadsOnly D.Disk disk.old disk.new }
{
    let mut block = [0; 1024];
    disk.read(at, &mut block)?;
    room.put_bytes(&block);
    Ok(())
}

// The bytes of these blocks.
pub(crate) fn read_room<D: Disk>(
    disk: &mut D,
    blocks: &[u32],
    room: &mut Blob,
) -> Result<(), DiskFault>
    requires there { All (λ b. b < D.block_count disk.old) blocks.now }
    requires few { length blocks.now ≤ 8 }
    ensures bytes { D.tells → OnOk result (room.new ≡ concat (map (block_at (D.reading disk.old)) blocks.now)) }
    ensures long { OnOk result (length room.new ≡ BLOCK_BYTES * length blocks.now) }
    ensures cause { HasCause (D.faults disk.old) (D.faults disk.new) result }
    ensures same { ReadsOnly D.Disk disk.old disk.new }
{
    room.clear();
    for at in blocks {
        add_block(disk, *at, room)?;
    }
    Ok(())
}
