// The two areas of the log.
ghost use Rattle.std.specs.Prelude.{◌≡◌, ◌⊎◌, ◌≤◌, ◌<◌, ◌+◌, ◌*◌, ◌^◌, ◌∷◌, ◌++◌, [], List, true, false, length, OnOk, OnErr, slice_set};
ghost use Rattle.edge_disk.specs.Disks.{IsStable, LeavesRead, TimePasses};
ghost use Rattle.edge_disk.specs.Disk.{HasCause, LeavesNoMore, Tears, Ticks};
ghost use Rattle.edge_disk.specs.Image.{HasRun, IsInRun, SameOutside};
ghost use Rattle.edge_disk.specs.Moments.{LeavesOnly, Quiet};
ghost use Rattle.base_types.specs.declared.records.Rec.{Rec as Record};
ghost use Rattle.edge_tally.specs.Counts.{Begins, CountsOn, shown};
ghost use Rattle.edge_disk.specs.Counts.{Rose};
ghost use Rattle.log_append.specs.image_facts.Layout.{last_number, pool_at, slot_count};
ghost use Rattle.log_append.specs.image_blocks.Logs.{IsNextSlot, IsTurned, IsTurning};
ghost use Rattle.log_append.specs.log_facts.Stages.{IsLogging};

use crate::filling::write_kept;
use crate::gates::{close_area, switch};
use base_types::Rec;
use edge_disk::{Disk, DiskFault};
use edge_tally::Tally;
use log_append::{Area, Log, LogFault, other_area};

/// Both areas: the log of the active one, its epoch, and how many writes and syncs were begun.
#[derive(Clone, Copy, Debug)]
pub struct Areas {
    log: Log,
    tally: Tally,
    epoch: u64,
}

impl Areas {
    ghost use Rattle.log_turn.specs.Answers.{TurnAnswers};
    ghost use Rattle.log_turn.specs.Standing.{HasCounted, HasGrown, HasTurned, IsTurnedTo, Stands, area_of, begun_of, epoch_of, has_failed, place_of, used_of};
    ghost use Rattle.log_append.specs.Answers.{AppendAnswers};
    ghost use Rattle.log_append.specs.log_facts.Gates.{HasGates};

    /// The areas, of which this one is active, with this epoch up to 2^62 and so many slots used, up to 640. Writes and syncs are counted
    /// behind those of the tally.
    pub fn new(active: Area, epoch: u64, used: u16, tally: Tally) -> Areas
        requires few { used ≤ slot_count }
        requires epoch { epoch ≤ last_number }
        ensures area { area_of result ≡ active }
        ensures used { used_of result ≡ used }
        ensures epoch { epoch_of result ≡ epoch }
        ensures working { has_failed result ≡ false }
        ensures begun { begun_of result ≡ tally.0 }
    {
        Areas {
            log: Log::new(active, used),
            tally,
            epoch,
        }
    }

    /// The active area.
    pub fn active(&self) -> Area
        ensures { result ≡ area_of self.now }
    {
        self.log.area()
    }

    /// The active area's epoch.
    pub fn epoch(&self) -> u64
        ensures { result ≡ epoch_of self.now }
    {
        self.epoch
    }

    /// How many slots of the active area are used.
    pub fn used(&self) -> u16
        ensures used { result ≡ used_of self.now }
        ensures few { result ≤ slot_count }
    {
        self.log.used()
    }

    /// How many writes and syncs were begun, those of the tally at the start and failed ones included. It stands still at 2^64 - 1.
    pub fn begun(&self) -> u64
        ensures { result ≡ begun_of self.now }
    {
        self.tally.0
    }

    /// Makes the kept records the whole log, in order, in the other area. A stop at any moment leaves the old log or the kept
    /// one.
    ///
    /// The other area's gate is closed where it reads open, and synced; the header with the next epoch, the records and the
    /// closed gate behind them are written, and synced; the area's gate is opened, and synced; the old area's gate is closed,
    /// and synced. For so many records that is twice as many writes and syncs, and 9 more at most.
    ///
    /// `Shut` comes exactly after an earlier `WriteFault` of this value, and then nothing is changed. `WriteFault` comes only
    /// where the disk's count of faults rose, by that read of the gate too.
    pub fn turn<D: Disk>(&mut self, disk: &mut D, kept: &[Rec]) -> Result<(), LogFault>
        requires enough { pool_at ≤ D.block_count disk.old }
        requires few { length kept.now ≤ slot_count }
        requires epoch { epoch_of self.old < 2 ^ 63 }
        requires stands { D.tells → has_failed self.old ≡ false → (recs : List Record) × Stands D.Disk self.old recs disk.old }

        ensures turned { D.tells → has_failed self.old ≡ false → OnOk result (IsTurnedTo D.Disk kept.now self.old self.new disk.new) }
        ensures outside { D.tells → SameOutside (IsTurned (area_of self.old)) (D.reading disk.old) (D.reading disk.new) }
        ensures stable { D.tells → OnOk result (IsStable D.Disk disk.new) }

        // A stop at any moment of the call leaves the old log or the kept one.
        ensures any_moment { D.tells → has_failed self.old ≡ false → (recs : List Record) → Stands D.Disk self.old recs disk.old
            → LeavesOnly D.Disk disk.old disk.new (IsTurning D.may_leave (place_of self.old) recs kept.now disk.old) }

        ensures answers { TurnAnswers (has_failed self.old) (Rose (D.faults disk.old) (D.faults disk.new)) result }
        ensures areas { HasTurned (length kept.now) result self.old self.new }
        ensures untouched { has_failed self.old ≡ true → (disk.new ≡ disk.old) × (self.new ≡ self.old) }
        ensures begins { Begins (2 * length kept.now + 9) (shown D.Disk disk.old (begun_of self.old)) (shown D.Disk disk.new (begun_of self.new)) }
    {
        if self.log.is_shut() {
            return Err(LogFault::Shut);
        }
        let active = self.log.area();
        let next = other_area(active);
        let epoch = self.epoch + 1;
        self.log.shut();
        close_area(&mut self.tally, disk, next)?;
        write_kept(&mut self.tally, disk, next, epoch, kept)?;
        switch(&mut self.tally, disk, active)?;
        self.log = Log::new(next, kept.len() as u16);
        self.epoch = epoch;
        Ok(())
    }

    /// Appends a record to the log, as `Log::append` does on the active area. A stop at any moment leaves the log with it or
    /// without it.
    pub fn append<D: Disk>(&mut self, disk: &mut D, rec: &Rec) -> Result<(), LogFault>
        requires enough { pool_at ≤ D.block_count disk.old }
        requires stands { D.tells → has_failed self.old ≡ false → (recs : List Record) × Stands D.Disk self.old recs disk.old }

        ensures added { D.tells → (recs : List Record) → Stands D.Disk self.old recs disk.old
            → OnOk result (Stands D.Disk self.new (recs ++ rec.now ∷ []) disk.new) }
        ensures gates { D.tells → OnOk result (HasGates (area_of self.old) (used_of self.old) (D.reading disk.new)) }
        ensures outside { D.tells → SameOutside (IsNextSlot (area_of self.old) (used_of self.old)) (D.reading disk.old) (D.reading disk.new) }
        ensures stable { D.tells → OnOk result (IsStable D.Disk disk.new) }

        // A stop at any moment of the call leaves the old log, or the new one with all that was written before the call.
        ensures any_moment { D.tells → has_failed self.old ≡ false → (recs : List Record) → Stands D.Disk self.old recs disk.old
            → LeavesOnly D.Disk disk.old disk.new (IsLogging D.Disk (place_of self.old) recs rec.now disk.old) }

        ensures answers { AppendAnswers (has_failed self.old) (used_of self.old) (Rose (D.faults disk.old) (D.faults disk.new)) result }
        ensures areas { HasGrown result self.old self.new }
        ensures untouched { (has_failed self.old ≡ true) ⊎ (used_of self.old ≡ slot_count) → (disk.new ≡ disk.old) × (self.new ≡ self.old) }
        ensures begins { Begins 5 (shown D.Disk disk.old (begun_of self.old)) (shown D.Disk disk.new (begun_of self.new)) }
    {
        self.log.append(&mut self.tally, disk, rec)
    }

    /// Writes a block of the disk, and counts it with the areas' own writes.
    pub fn write<D: Disk>(
        &mut self,
        disk: &mut D,
        at: u32,
        from: &[u8; 1024],
    ) -> Result<(), DiskFault>
        requires { at < D.block_count disk.old }
        ensures count { D.block_count disk.new ≡ D.block_count disk.old }
        ensures clock { Ticks (D.clock disk.old) (D.clock disk.new) }
        ensures begun { Ticks (begun_of self.old) (begun_of self.new) }
        ensures counts { CountsOn (D.clock disk.old) (D.clock disk.new) (begun_of self.old) (begun_of self.new) }
        ensures cause { HasCause (D.faults disk.old) (D.faults disk.new) result }
        ensures block { D.tells → OnOk result (D.reading disk.new ≡ slice_set (D.reading disk.old) at from.now) }
        ensures reading { D.tells → SameOutside (λ n. n ≡ at) (D.reading disk.old) (D.reading disk.new) }
        ensures stop { D.tells → Tears D.may_leave at disk.old disk.new }
        ensures time { D.tells → TimePasses D.Disk disk.old disk.new }
        ensures areas { HasCounted self.old self.new }
    {
        self.tally.write(disk, at, from)
    }

    /// Writes blocks one after the other, from `at` on, and counts those that are begun. It makes nothing stable.
    pub fn write_run<D: Disk>(
        &mut self,
        disk: &mut D,
        at: u32,
        run: &[[u8; 1024]],
    ) -> Result<(), DiskFault>
        requires { at + length run.now ≤ D.block_count disk.old }
        ensures count { D.block_count disk.new ≡ D.block_count disk.old }
        ensures few { begun_of self.new ≤ begun_of self.old + length run.now }
        ensures counts { CountsOn (D.clock disk.old) (D.clock disk.new) (begun_of self.old) (begun_of self.new) }
        ensures cause { HasCause (D.faults disk.old) (D.faults disk.new) result }
        ensures run { D.tells → OnOk result (HasRun at run.now (D.reading disk.new)) }
        ensures reading { D.tells → SameOutside (IsInRun at (length run.now)) (D.reading disk.old) (D.reading disk.new) }
        ensures any_moment { D.tells → Quiet D.Disk (IsInRun at (length run.now)) disk.old disk.new }
        ensures areas { HasCounted self.old self.new }
    {
        self.tally.write_run(disk, at, run)
    }

    /// Makes the disk stable, and counts it with the areas' own syncs.
    pub fn sync<D: Disk>(&mut self, disk: &mut D) -> Result<(), DiskFault>
        ensures count { D.block_count disk.new ≡ D.block_count disk.old }
        ensures clock { Ticks (D.clock disk.old) (D.clock disk.new) }
        ensures begun { Ticks (begun_of self.old) (begun_of self.new) }
        ensures counts { CountsOn (D.clock disk.old) (D.clock disk.new) (begun_of self.old) (begun_of self.new) }
        ensures cause { HasCause (D.faults disk.old) (D.faults disk.new) result }
        ensures stable { D.tells → OnOk result (LeavesRead D.Disk disk.old disk.new) }
        ensures unstable { D.tells → OnErr result (LeavesNoMore D.may_leave disk.new disk.old) }
        ensures reading { D.tells → D.reading disk.new ≡ D.reading disk.old }
        ensures stop { D.tells → LeavesNoMore D.may_leave disk.old disk.new }
        ensures time { D.tells → TimePasses D.Disk disk.old disk.new }
        ensures areas { HasCounted self.old self.new }
    {
        self.tally.sync(disk)
    }
}
