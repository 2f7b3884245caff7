// The blocks of a slot.
ghost use Rattle.std.specs.Prelude.{◌≡◌, ◌≤◌, ◌<◌, ◌+◌, OnOk, slice_set};
ghost use Rattle.edge_disk.specs.Disks.{IsStable};
ghost use Rattle.edge_disk.specs.Disk.{HasCause};
ghost use Rattle.edge_disk.specs.Image.{SameOutside, block_at};
ghost use Rattle.edge_disk.specs.Moments.{LeavesOnly, Quiet};
ghost use Rattle.edge_tally.specs.Counts.{CountsOn};
ghost use Rattle.image_blocks.specs.Layout.{body_at, slot_gate_at};
ghost use Rattle.image_blocks.specs.image_facts.Layout.{closed_gate as closed_block, open_gate as open_block, pool_at, slot_count};
ghost use Rattle.log_facts.specs.Bodies.{IsBodyBlock, IsOpening};

use edge_disk::{Disk, DiskFault};
use edge_tally::Tally;
use image_blocks::{Area, SLOT_COUNT, body_of, closed_gate, open_gate};

const LAST_SLOT: u16 = SLOT_COUNT - 1;

// Writes the body of a slot, and the next slot's gate closed where there is one. It makes nothing stable.
pub(crate) fn write_body<D: Disk>(
    tally: &mut Tally,
    disk: &mut D,
    area: Area,
    slot: u16,
    body: &[u8; 1024],
) -> Result<(), DiskFault>
    requires enough { pool_at ≤ D.block_count disk.old }
    requires slot { slot < slot_count }
    ensures count { D.block_count disk.new ≡ D.block_count disk.old }
    ensures few { tally.new.0 ≤ tally.old.0 + 2 }
    ensures counts { CountsOn (D.clock disk.old) (D.clock disk.new) tally.old.0 tally.new.0 }
    ensures cause { HasCause (D.faults disk.old) (D.faults disk.new) result }
    ensures body { D.tells → OnOk result (block_at (D.reading disk.new) (body_at area slot) ≡ body.now) }
    ensures next { D.tells → OnOk result (slot + 1 < slot_count → block_at (D.reading disk.new) (slot_gate_at area (slot + 1)) ≡ closed_block) }
    ensures reading { D.tells → SameOutside (IsBodyBlock area slot) (D.reading disk.old) (D.reading disk.new) }
    ensures any_moment { D.tells → Quiet D.Disk (IsBodyBlock area slot) disk.old disk.new }
{
    let at = body_of(area, slot);
    tally.write(disk, at, body)?;
    if slot == LAST_SLOT {
        return Ok(());
    }
    tally.write(disk, at + 3, &closed_gate())?;
    Ok(())
}

// Makes the disk stable; then opens the gate in this block, and makes that stable.
pub(crate) fn open_slot<D: Disk>(tally: &mut Tally, disk: &mut D, at: u32) -> Result<(), DiskFault>
    requires { at < D.block_count disk.old }
    ensures count { D.block_count disk.new ≡ D.block_count disk.old }
    ensures few { tally.new.0 ≤ tally.old.0 + 3 }
    ensures counts { CountsOn (D.clock disk.old) (D.clock disk.new) tally.old.0 tally.new.0 }
    ensures cause { HasCause (D.faults disk.old) (D.faults disk.new) result }
    ensures gate { D.tells → OnOk result (D.reading disk.new ≡ slice_set (D.reading disk.old) at open_block) }
    ensures reading { D.tells → SameOutside (λ n. n ≡ at) (D.reading disk.old) (D.reading disk.new) }
    ensures stable { D.tells → OnOk result (IsStable D.Disk disk.new) }
    ensures any_moment { D.tells → LeavesOnly D.Disk disk.old disk.new (IsOpening D.Disk at disk.old) }
{
    tally.sync(disk)?;
    tally.write_and_sync(disk, at, &open_gate())?;
    Ok(())
}
