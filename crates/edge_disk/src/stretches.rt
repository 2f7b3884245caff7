// Stretches of calls that callers of a disk have in common.
ghost use Rattle.std.specs.Prelude.{◌≡◌, ◌≤◌, ◌<◌, ◌+◌, length, slice_set, OnOk};
ghost use Rattle.edge_disk.specs.Disks.{IsStable};
ghost use Rattle.edge_disk.specs.Disk.{Began, HasCause};
ghost use Rattle.edge_disk.specs.Image.{HasRun, IsInRun, SameOutside};
ghost use Rattle.edge_disk.specs.Moments.{Quiet};

use crate::{Disk, DiskFault};

/// Writes a block and makes the whole disk stable.
pub fn write_and_sync<D: Disk>(disk: &mut D, at: u32, block: &[u8; 1024]) -> Result<(), DiskFault>
    requires { at < D.block_count disk.old }
    ensures count { D.block_count disk.new ≡ D.block_count disk.old }
    ensures clock { D.clock disk.new ≤ D.clock disk.old + 2 }
    ensures began { OnOk result (Began 2 (D.clock disk.old) (D.clock disk.new)) }
    ensures cause { HasCause (D.faults disk.old) (D.faults disk.new) result }
    ensures block { D.tells → OnOk result (D.reading disk.new ≡ slice_set (D.reading disk.old) at block.now) }
    ensures reading { D.tells → SameOutside (λ n. n ≡ at) (D.reading disk.old) (D.reading disk.new) }
    ensures stable { D.tells → OnOk result (IsStable D.Disk disk.new) }
    ensures any_moment { D.tells → Quiet D.Disk (λ n. n ≡ at) disk.old disk.new }
{
    disk.write(at, block)?;
    disk.sync()
}

/// Writes blocks one after the other, from `at` on. It makes nothing stable.
pub fn write_run<D: Disk>(disk: &mut D, at: u32, run: &[[u8; 1024]]) -> Result<(), DiskFault>
    requires { at + length run.now ≤ D.block_count disk.old }
    ensures count { D.block_count disk.new ≡ D.block_count disk.old }
    ensures clock { D.clock disk.new ≤ D.clock disk.old + length run.now }
    ensures began { OnOk result (Began (length run.now) (D.clock disk.old) (D.clock disk.new)) }
    ensures cause { HasCause (D.faults disk.old) (D.faults disk.new) result }
    ensures run { D.tells → OnOk result (HasRun at run.now (D.reading disk.new)) }
    ensures reading { D.tells → SameOutside (IsInRun at (length run.now)) (D.reading disk.old) (D.reading disk.new) }
    ensures any_moment { D.tells → Quiet D.Disk (IsInRun at (length run.now)) disk.old disk.new }
{
    for (i, block) in run.iter().enumerate() {
        disk.write(at + i as u32, block)?;
    }
    Ok(())
}
