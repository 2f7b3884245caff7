// Looks at single blocks.
ghost use Rattle.std.specs.Prelude.{◌≡◌, ◌<◌, ◌≤◌, IfOk};
ghost use Rattle.edge_disk.specs.Disk.{HasCause};
ghost use Rattle.edge_disk.specs.Image.{block_at};
ghost use Rattle.image_blocks.specs.Layout.{epoch_in, gate_at};
ghost use Rattle.image_blocks.specs.image_facts.Layout.{is_open as opens, pool_at};
ghost use Rattle.log_facts.specs.Reads.{ReadsOnly};

use edge_disk::{Disk, DiskFault};
use image_blocks::{Area, epoch_of, gate_of, header_of, is_open};

// The bytes of a block.
pub(crate) fn block_of<D: Disk>(disk: &mut D, at: u32) -> Result<[u8; 1024], DiskFault>
    requires { at < D.block_count disk.old }
    ensures block { D.tells → IfOk result (λ b. b ≡ block_at (D.reading disk.old) at) }
    ensures cause { HasCause (D.faults disk.old) (D.faults disk.new) result }
    ensures same { ReadsOnly D.Disk disk.old disk.new }
{
    let mut block = [0; 1024];
    disk.read(at, &mut block)?;
    Ok(block)
}

// Whether the gate of an area reads open.
pub(crate) fn is_area_open<D: Disk>(disk: &mut D, area: Area) -> Result<bool, DiskFault>
    requires { pool_at ≤ D.block_count disk.old }
    ensures gate { D.tells → IfOk result (λ b. b ≡ opens (D.reading disk.old) (gate_at area)) }
    ensures cause { HasCause (D.faults disk.old) (D.faults disk.new) result }
    ensures same { ReadsOnly D.Disk disk.old disk.new }
{
    let block = block_of(disk, gate_of(area))?;
    Ok(is_open(&block))
}

// The epoch in the header of an area.
pub(crate) fn area_epoch<D: Disk>(disk: &mut D, area: Area) -> Result<u64, DiskFault>
    requires { pool_at ≤ D.block_count disk.old }
    ensures epoch { D.tells → IfOk result (λ n. n ≡ epoch_in (D.reading disk.old) area) }
    ensures cause { HasCause (D.faults disk.old) (D.faults disk.new) result }
    ensures same { ReadsOnly D.Disk disk.old disk.new }
{
    let block = block_of(disk, header_of(area))?;
    Ok(epoch_of(&block))
}
