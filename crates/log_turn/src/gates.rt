// The gates of areas.
ghost use Rattle.std.specs.Prelude.{◌≡◌, ◌≤◌, ◌+◌, true, false, OnOk};
ghost use Rattle.edge_disk.specs.Disks.{IsStable};
ghost use Rattle.edge_disk.specs.Disk.{HasCause};
ghost use Rattle.edge_disk.specs.Image.{SameOutside, block_at};
ghost use Rattle.edge_disk.specs.Moments.{LeavesOnly, Quiet};
ghost use Rattle.edge_tally.specs.Counts.{CountsOn};
ghost use Rattle.log_append.specs.image_facts.Layout.{closed_gate as closed_block, is_open as opens, open_gate as open_block, pool_at};
ghost use Rattle.log_append.specs.image_blocks.Layout.{gate_at, other};
ghost use Rattle.log_append.specs.log_facts.Stages.{IsClosing, IsEitherGate, IsSwitching};

use edge_disk::{Disk, DiskFault};
use edge_tally::Tally;
use log_append::{Area, closed_gate, gate_of, is_open, open_gate, other_area};

// Closes the gate of an area where it reads open, and makes that stable.
pub(crate) fn close_area<D: Disk>(
    tally: &mut Tally,
    disk: &mut D,
    area: Area,
) -> Result<(), DiskFault>
    requires { pool_at ≤ D.block_count disk.old }
    ensures count { D.block_count disk.new ≡ D.block_count disk.old }
    ensures few { tally.new.0 ≤ tally.old.0 + 2 }
    ensures counts { CountsOn (D.clock disk.old) (D.clock disk.new) tally.old.0 tally.new.0 }
    ensures cause { HasCause (D.faults disk.old) (D.faults disk.new) result }
    ensures closed { D.tells → OnOk result (opens (D.reading disk.new) (gate_at area) ≡ false) }
    ensures written { D.tells → OnOk result (opens (D.reading disk.old) (gate_at area) ≡ true → block_at (D.reading disk.new) (gate_at area) ≡ closed_block) }
    ensures stable { D.tells → OnOk result (opens (D.reading disk.old) (gate_at area) ≡ true → IsStable D.Disk disk.new) }
    ensures reading { D.tells → SameOutside (IsClosing (D.reading disk.old) area) (D.reading disk.old) (D.reading disk.new) }
    ensures any_moment { D.tells → Quiet D.Disk (IsClosing (D.reading disk.old) area) disk.old disk.new }
{
    let at = gate_of(area);
    let mut block = [0; 1024];
    disk.read(at, &mut block)?;
    if !is_open(&block) {
        return Ok(());
    }
    tally.write_and_sync(disk, at, &closed_gate())?;
    Ok(())
}

// Opens the other area's gate, and makes that stable; then closes the gate of this one, and makes that stable.
pub(crate) fn switch<D: Disk>(
    tally: &mut Tally,
    disk: &mut D,
    active: Area,
) -> Result<(), DiskFault>
    requires enough { pool_at ≤ D.block_count disk.old }
    requires synced { D.tells → IsStable D.Disk disk.old }
    ensures count { D.block_count disk.new ≡ D.block_count disk.old }
    ensures few { tally.new.0 ≤ tally.old.0 + 4 }
    ensures counts { CountsOn (D.clock disk.old) (D.clock disk.new) tally.old.0 tally.new.0 }
    ensures cause { HasCause (D.faults disk.old) (D.faults disk.new) result }
    ensures opened { D.tells → OnOk result (block_at (D.reading disk.new) (gate_at (other active)) ≡ open_block) }
    ensures closed { D.tells → OnOk result (block_at (D.reading disk.new) (gate_at active) ≡ closed_block) }
    ensures reading { D.tells → SameOutside (IsEitherGate active) (D.reading disk.old) (D.reading disk.new) }
    ensures stable { D.tells → OnOk result (IsStable D.Disk disk.new) }
    ensures any_moment { D.tells → LeavesOnly D.Disk disk.old disk.new (IsSwitching active (D.reading disk.old)) }
{
    let at = gate_of(other_area(active));
    tally.write_and_sync(disk, at, &open_gate())?;
    tally.write_and_sync(disk, gate_of(active), &closed_gate())?;
    Ok(())
}
