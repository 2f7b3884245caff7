//! A count of the writes and syncs begun on a disk, failed ones included.
//!
//! A caller that makes many calls can tell by it how far the disk's clock went, though it can't see the clock.
#![tactic(auto)]

ghost use Rattle.std.specs.Prelude.{◌≡◌, ◌≤◌, ◌<◌, ◌+◌, length, OnOk, OnErr, slice_set};
ghost use Rattle.edge_disk.specs.Disks.{IsStable, LeavesRead, TimePasses};
ghost use Rattle.edge_disk.specs.Disk.{HasCause, LeavesNoMore, Tears, Ticks};
ghost use Rattle.edge_disk.specs.Image.{HasRun, IsInRun, SameOutside};
ghost use Rattle.edge_disk.specs.Moments.{Quiet};
ghost use Rattle.edge_tally.specs.Counts.{CountsOn};

use edge_disk::{Disk, DiskFault};

/// How many writes and syncs were begun. It stands still at 2^64 - 1.
#[derive(Clone, Copy, Debug, PartialEq, Eq)]
pub struct Tally(pub u64);

impl Tally {
    /// Writes a block of the disk, and counts it.
    pub fn write<D: Disk>(
        &mut self,
        disk: &mut D,
        at: u32,
        from: &[u8; 1024],
    ) -> Result<(), DiskFault>
        requires { at < D.block_count disk.old }
        ensures count { D.block_count disk.new ≡ D.block_count disk.old }
        ensures clock { Ticks (D.clock disk.old) (D.clock disk.new) }
        ensures begun { Ticks self.old.0 self.new.0 }
        ensures counts { CountsOn (D.clock disk.old) (D.clock disk.new) self.old.0 self.new.0 }
        ensures cause { HasCause (D.faults disk.old) (D.faults disk.new) result }
        ensures block { D.tells → OnOk result (D.reading disk.new ≡ slice_set (D.reading disk.old) at from.now) }
        ensures reading { D.tells → SameOutside (λ n. n ≡ at) (D.reading disk.old) (D.reading disk.new) }
        ensures stop { D.tells → Tears D.may_leave at disk.old disk.new }
        ensures time { D.tells → TimePasses D.Disk disk.old disk.new }
    {
        self.0 = self.0.saturating_add(1);
        disk.write(at, from)
    }

    /// Makes the disk stable, and counts it.
    pub fn sync<D: Disk>(&mut self, disk: &mut D) -> Result<(), DiskFault>
        ensures count { D.block_count disk.new ≡ D.block_count disk.old }
        ensures clock { Ticks (D.clock disk.old) (D.clock disk.new) }
        ensures begun { Ticks self.old.0 self.new.0 }
        ensures counts { CountsOn (D.clock disk.old) (D.clock disk.new) self.old.0 self.new.0 }
        ensures cause { HasCause (D.faults disk.old) (D.faults disk.new) result }
        ensures stable { D.tells → OnOk result (LeavesRead D.Disk disk.old disk.new) }
        ensures unstable { D.tells → OnErr result (LeavesNoMore D.may_leave disk.new disk.old) }
        ensures reading { D.tells → D.reading disk.new ≡ D.reading disk.old }
        ensures stop { D.tells → LeavesNoMore D.may_leave disk.old disk.new }
        ensures time { D.tells → TimePasses D.Disk disk.old disk.new }
    {
        self.0 = self.0.saturating_add(1);
        disk.sync()
    }

    /// Writes a block and makes the whole disk stable.
    pub fn write_and_sync<D: Disk>(
        &mut self,
        disk: &mut D,
        at: u32,
        block: &[u8; 1024],
    ) -> Result<(), DiskFault>
        requires { at < D.block_count disk.old }
        ensures count { D.block_count disk.new ≡ D.block_count disk.old }
        ensures few { self.new.0 ≤ self.old.0 + 2 }
        ensures counts { CountsOn (D.clock disk.old) (D.clock disk.new) self.old.0 self.new.0 }
        ensures cause { HasCause (D.faults disk.old) (D.faults disk.new) result }
        ensures block { D.tells → OnOk result (D.reading disk.new ≡ slice_set (D.reading disk.old) at block.now) }
        ensures reading { D.tells → SameOutside (λ n. n ≡ at) (D.reading disk.old) (D.reading disk.new) }
        ensures stable { D.tells → OnOk result (IsStable D.Disk disk.new) }
        ensures any_moment { D.tells → Quiet D.Disk (λ n. n ≡ at) disk.old disk.new }
    {
        self.write(disk, at, block)?;
        self.sync(disk)
    }

    /// Writes blocks one after the other, from `at` on, and counts those that are begun. It makes nothing stable.
    pub fn write_run<D: Disk>(
        &mut self,
        disk: &mut D,
        at: u32,
        run: &[[u8; 1024]],
    ) -> Result<(), DiskFault>
        requires { at + length run.now ≤ D.block_count disk.old }
        ensures count { D.block_count disk.new ≡ D.block_count disk.old }
        ensures few { self.new.0 ≤ self.old.0 + length run.now }
        ensures counts { CountsOn (D.clock disk.old) (D.clock disk.new) self.old.0 self.new.0 }
        ensures cause { HasCause (D.faults disk.old) (D.faults disk.new) result }
        ensures run { D.tells → OnOk result (HasRun at run.now (D.reading disk.new)) }
        ensures reading { D.tells → SameOutside (IsInRun at (length run.now)) (D.reading disk.old) (D.reading disk.new) }
        ensures any_moment { D.tells → Quiet D.Disk (IsInRun at (length run.now)) disk.old disk.new }
    {
        for (i, block) in run.iter().enumerate() {
            self.write(disk, at + i as u32, block)?;
        }
        Ok(())
    }
}
