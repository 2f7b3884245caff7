// Two callers of the log, over any disk: what they promise follows from what the log's calls say of a disk that tells its content.
ghost use Rattle.std.specs.Prelude.{◌≡◌, ◌≤◌, ◌<◌, ◌^◌, List, [], false, length, IfOk, OnOk};
ghost use Rattle.edge_disk.specs.Moments.{LeavesOnly};
ghost use Rattle.base_types.specs.declared.records.Rec.{Rec as Record};
ghost use Rattle.image_blocks.specs.image_facts.Layout.{pool_at, slot_count};
ghost use Rattle.log_turn.specs.Standing.{Stands, epoch_of, has_failed, place_of};
ghost use Rattle.test_log.specs.Uses.{IsOneOf};

use base_types::Rec;
use edge_disk::{Disk, DiskFault};
use edge_tally::Tally;
use image_blocks::{Area, body_of, closed_gate, gate_of, header_block, header_of, open_gate};
use log_append::LogFault;
use log_turn::Areas;

/// Begins an empty log on a disk, in area A with epoch 1, by four writes and a sync. Every other block is left as it is.
pub fn begin_log<D: Disk>(disk: &mut D) -> Result<Areas, DiskFault>
    requires { pool_at ≤ D.block_count disk.old }
    ensures count { D.block_count disk.new ≡ D.block_count disk.old }
    ensures stands { D.tells → IfOk result (λ areas. Stands D.Disk areas [] disk.new) }
    ensures working { IfOk result (λ areas. has_failed areas ≡ false) }
    ensures epoch { IfOk result (λ areas. epoch_of areas ≡ 1) }
{
    disk.write(gate_of(Area::B), &closed_gate())?;
    disk.write(header_of(Area::A), &header_block(1))?;
    disk.write(body_of(Area::A, 0) + 1, &closed_gate())?;
    disk.write(gate_of(Area::A), &open_gate())?;
    disk.sync()?;
    Ok(Areas::new(Area::A, 1, 0, Tally(0)))
}

/// Appends a record, and then makes the kept records the whole log. A stop at any moment leaves the log as it was, the log
/// with the record, or the kept one.
pub fn append_and_turn<D: Disk>(
    areas: &mut Areas,
    disk: &mut D,
    rec: &Rec,
    kept: &[Rec],
) -> Result<(), LogFault>
    requires enough { pool_at ≤ D.block_count disk.old }
    requires few { length kept.now ≤ slot_count }
    requires epoch { epoch_of areas.old < 2 ^ 63 }
    requires stands { D.tells → has_failed areas.old ≡ false → (recs : List Record) × Stands D.Disk areas.old recs disk.old }
    ensures turned { D.tells → has_failed areas.old ≡ false → OnOk result (Stands D.Disk areas.new kept.now disk.new) }
    ensures any_moment { D.tells → has_failed areas.old ≡ false → (recs : List Record) → Stands D.Disk areas.old recs disk.old
        → LeavesOnly D.Disk disk.old disk.new (IsOneOf (place_of areas.old) recs rec.now kept.now) }
{
    areas.append(disk, rec)?;
    areas.turn(disk, kept)?;
    Ok(())
}
