// The log of one area.
ghost use Rattle.std.specs.Prelude.{◌≡◌, ◌⊎◌, ◌≤◌, ◌∷◌, ◌++◌, [], List, true, false, OnOk};
ghost use Rattle.edge_disk.specs.Disks.{IsStable};
ghost use Rattle.edge_disk.specs.Image.{SameOutside};
ghost use Rattle.edge_disk.specs.Moments.{LeavesOnly};
ghost use Rattle.base_types.specs.declared.records.Rec.{Rec as Record};
ghost use Rattle.edge_tally.specs.Counts.{Begins, shown};
ghost use Rattle.edge_disk.specs.Counts.{Rose};
ghost use Rattle.image_blocks.specs.image_facts.Layout.{pool_at, slot_count};
ghost use Rattle.image_blocks.specs.Logs.{IsAppending, IsNextSlot};

use crate::slots::{open_slot, write_body};
use base_types::Rec;
use edge_disk::{Disk, DiskFault};
use edge_tally::Tally;
use image_blocks::{Area, SLOT_COUNT, body_block, body_of};

/// Why a log was not appended to, or not turned.
#[derive(Clone, Copy, Debug, PartialEq, Eq, Drop)]
pub enum LogFault {
    /// All 640 slots are used.
    SlotsFull,
    /// A read, a write or a sync failed. The record may be found later, or not.
    WriteFault,
    /// An earlier call failed so.
    Shut,
}

impl From<DiskFault> for LogFault {
    ghost use Rattle.log_append.specs.declared.log.LogFault.TheVariants.{WriteFault};

    ghost from_gives = { λ _ e. e ≡ WriteFault };

    fn from(_fault: DiskFault) -> LogFault {
        LogFault::WriteFault
    }
}

/// The log of one area: how many of its slots are used, and whether a call has failed.
#[derive(Clone, Copy, Debug)]
pub struct Log {
    area: Area,
    used: u16,
    failed: bool,
    ghost few: { used ≤ slot_count },
}

impl Log {
    ghost use Rattle.log_append.specs.Answers.{AppendAnswers};
    ghost use Rattle.log_append.specs.Standing.{HasAppended, Stands, area_of, has_failed, used_of};
    ghost use Rattle.log_facts.specs.Gates.{HasGates};

    /// The log of an area with so many slots used, up to 640.
    pub fn new(area: Area, used: u16) -> Log
        requires { used ≤ slot_count }
        ensures area { area_of result ≡ area }
        ensures used { used_of result ≡ used }
        ensures working { has_failed result ≡ false }
    {
        Log {
            area,
            used,
            failed: false,
        }
    }

    /// Appends a record, and counts the writes and syncs. Its body is written, the next slot's gate is written closed where
    /// there is one, and both are synced; its own gate is opened, and synced: 5 writes and syncs at most. A stop at any moment
    /// leaves the log with the record or without it.
    ///
    /// `SlotsFull` comes exactly where all 640 slots are used, `Shut` exactly after an earlier `WriteFault` of this value or
    /// after `shut`, and then nothing is changed. `WriteFault` comes only where the disk's count of faults rose.
    pub fn append<D: Disk>(
        &mut self,
        tally: &mut Tally,
        disk: &mut D,
        rec: &Rec,
    ) -> Result<(), LogFault>
        requires enough { pool_at ≤ D.block_count disk.old }
        requires stands { D.tells → has_failed self.old ≡ false → (recs : List Record) × Stands D.Disk self.old recs disk.old }

        ensures added { D.tells → (recs : List Record) → Stands D.Disk self.old recs disk.old
            → OnOk result (Stands D.Disk self.new (recs ++ rec.now ∷ []) disk.new) }
        ensures gates { D.tells → OnOk result (HasGates (area_of self.old) (used_of self.old) (D.reading disk.new)) }
        ensures outside { D.tells → SameOutside (IsNextSlot (area_of self.old) (used_of self.old)) (D.reading disk.old) (D.reading disk.new) }
        ensures stable { D.tells → OnOk result (IsStable D.Disk disk.new) }

        // A stop at any moment of the call leaves the old log, or the new one with all that was written before the call.
        ensures any_moment { D.tells → has_failed self.old ≡ false → (recs : List Record) → Stands D.Disk self.old recs disk.old
            → LeavesOnly D.Disk disk.old disk.new (IsAppending D.Disk (area_of self.old) recs rec.now disk.old) }

        ensures answers { AppendAnswers (has_failed self.old) (used_of self.old) (Rose (D.faults disk.old) (D.faults disk.new)) result }
        ensures log { HasAppended result self.old self.new }
        ensures untouched { (has_failed self.old ≡ true) ⊎ (used_of self.old ≡ slot_count) → (disk.new ≡ disk.old) × (tally.new ≡ tally.old) × (self.new ≡ self.old) }
        ensures begins { Begins 5 (shown D.Disk disk.old tally.old.0) (shown D.Disk disk.new tally.new.0) }
    {
        if self.failed {
            return Err(LogFault::Shut);
        }
        if self.used == SLOT_COUNT {
            return Err(LogFault::SlotsFull);
        }
        let at = body_of(self.area, self.used);
        self.failed = true;
        write_body(tally, disk, self.area, self.used, &body_block(rec))?;
        open_slot(tally, disk, at + 1)?;
        self.failed = false;
        self.used += 1;
        Ok(())
    }

    /// Shuts the log: from now on an append answers `Shut`. Nothing opens it again.
    pub fn shut(&mut self)
        ensures failed { has_failed self.new ≡ true }
        ensures area { area_of self.new ≡ area_of self.old }
        ensures used { used_of self.new ≡ used_of self.old }
    {
        self.failed = true;
    }

    /// Whether it is shut: a call has answered `WriteFault`, or `shut` was called.
    pub fn is_shut(&self) -> bool
        ensures { result ≡ has_failed self.now }
    {
        self.failed
    }

    /// The area.
    pub fn area(&self) -> Area
        ensures { result ≡ area_of self.now }
    {
        self.area
    }

    /// How many slots are used.
    pub fn used(&self) -> u16
        ensures used { result ≡ used_of self.now }
        ensures few { result ≤ slot_count }
    {
        self.used
    }
}
