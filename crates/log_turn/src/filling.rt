// Writing kept records into an area whose gate is closed.
ghost use Rattle.std.specs.Prelude.{◌≡◌, ◌≤◌, ◌<◌, ◌+◌, ◌*◌, length, OnOk};
ghost use Rattle.edge_disk.specs.Disks.{IsStable};
ghost use Rattle.edge_disk.specs.Disk.{HasCause};
ghost use Rattle.edge_disk.specs.Image.{SameOutside, block_at};
ghost use Rattle.edge_disk.specs.Moments.{Quiet};
ghost use Rattle.edge_tally.specs.Counts.{CountsOn};
ghost use Rattle.log_append.specs.image_facts.Bodies.{body_block as block_of};
ghost use Rattle.log_append.specs.image_blocks.Layout.{body_at, header_at, slot_gate_at};
ghost use Rattle.log_append.specs.image_facts.Layout.{closed_gate as closed_block, header_block as header_with, open_gate as open_block, pool_at, slot_count};
ghost use Rattle.log_append.specs.image_blocks.Logs.{HasSlots};
ghost use Rattle.log_append.specs.log_facts.Stages.{HasFilled, HasSlotGates, IsBehindGate, IsGateOf, IsOfSlot};

use base_types::Rec;
use edge_disk::{Disk, DiskFault};
use edge_tally::Tally;
use log_append::{
    Area, SLOT_COUNT, body_block, body_of, closed_gate, header_block, header_of, open_gate,
};

// Writes a record into a slot, and the slot's gate open.
fn write_slot<D: Disk>(
    tally: &mut Tally,
    disk: &mut D,
    area: Area,
    slot: u16,
    rec: &Rec,
) -> Result<(), DiskFault>
    requires enough { pool_at ≤ D.block_count disk.old }
    requires slot { slot < slot_count }
    ensures count { D.block_count disk.new ≡ D.block_count disk.old }
    ensures few { tally.new.0 ≤ tally.old.0 + 2 }
    ensures counts { CountsOn (D.clock disk.old) (D.clock disk.new) tally.old.0 tally.new.0 }
    ensures cause { HasCause (D.faults disk.old) (D.faults disk.new) result }
    ensures body { D.tells → OnOk result (block_at (D.reading disk.new) (body_at area slot) ≡ block_of rec.now) }
    ensures gate { D.tells → OnOk result (block_at (D.reading disk.new) (slot_gate_at area slot) ≡ open_block) }
    ensures reading { D.tells → SameOutside (IsOfSlot area slot) (D.reading disk.old) (D.reading disk.new) }
    ensures any_moment { D.tells → Quiet D.Disk (IsOfSlot area slot) disk.old disk.new }
{
    let at = body_of(area, slot);
    tally.write(disk, at, &body_block(rec))?;
    tally.write(disk, at + 1, &open_gate())?;
    Ok(())
}

// Writes records into the first slots.
fn write_slots<D: Disk>(
    tally: &mut Tally,
    disk: &mut D,
    area: Area,
    kept: &[Rec],
) -> Result<(), DiskFault>
    requires enough { pool_at ≤ D.block_count disk.old }
    requires few { length kept.now ≤ slot_count }
    ensures count { D.block_count disk.new ≡ D.block_count disk.old }
    ensures few { tally.new.0 ≤ tally.old.0 + 2 * length kept.now }
    ensures counts { CountsOn (D.clock disk.old) (D.clock disk.new) tally.old.0 tally.new.0 }
    ensures cause { HasCause (D.faults disk.old) (D.faults disk.new) result }
    ensures filled { D.tells → OnOk result (HasFilled area kept.now (D.reading disk.new)) }
    ensures header { D.tells → block_at (D.reading disk.new) (header_at area) ≡ block_at (D.reading disk.old) (header_at area) }
    ensures reading { D.tells → SameOutside (IsBehindGate area) (D.reading disk.old) (D.reading disk.new) }
    ensures any_moment { D.tells → Quiet D.Disk (IsBehindGate area) disk.old disk.new }
{
    for (i, rec) in kept.iter().enumerate() {
        write_slot(tally, disk, area, i as u16, rec)?;
    }
    Ok(())
}

// Writes the gate of the slot behind so many closed, where there is one.
fn close_slot<D: Disk>(
    tally: &mut Tally,
    disk: &mut D,
    area: Area,
    used: u16,
) -> Result<(), DiskFault>
    requires enough { pool_at ≤ D.block_count disk.old }
    requires used { used ≤ slot_count }
    ensures count { D.block_count disk.new ≡ D.block_count disk.old }
    ensures few { tally.new.0 ≤ tally.old.0 + 1 }
    ensures counts { CountsOn (D.clock disk.old) (D.clock disk.new) tally.old.0 tally.new.0 }
    ensures cause { HasCause (D.faults disk.old) (D.faults disk.new) result }
    ensures closed { D.tells → OnOk result (used < slot_count → block_at (D.reading disk.new) (slot_gate_at area used) ≡ closed_block) }
    ensures reading { D.tells → SameOutside (IsGateOf area used) (D.reading disk.old) (D.reading disk.new) }
    ensures any_moment { D.tells → Quiet D.Disk (IsGateOf area used) disk.old disk.new }
{
    if used == SLOT_COUNT {
        return Ok(());
    }
    let at = body_of(area, used);
    tally.write(disk, at + 1, &closed_gate())?;
    Ok(())
}

// Writes the header and the records of an area, and makes them stable. Its gate it leaves alone.
pub(crate) fn write_kept<D: Disk>(
    tally: &mut Tally,
    disk: &mut D,
    area: Area,
    epoch: u64,
    kept: &[Rec],
) -> Result<(), DiskFault>
    requires enough { pool_at ≤ D.block_count disk.old }
    requires few { length kept.now ≤ slot_count }
    ensures count { D.block_count disk.new ≡ D.block_count disk.old }
    ensures few { tally.new.0 ≤ tally.old.0 + 2 * length kept.now + 3 }
    ensures counts { CountsOn (D.clock disk.old) (D.clock disk.new) tally.old.0 tally.new.0 }
    ensures cause { HasCause (D.faults disk.old) (D.faults disk.new) result }
    ensures header { D.tells → OnOk result (block_at (D.reading disk.new) (header_at area) ≡ header_with epoch) }
    ensures slots { D.tells → OnOk result (HasSlots area kept.now (D.reading disk.new)) }
    ensures gates { D.tells → OnOk result (HasSlotGates area (length kept.now) (D.reading disk.new)) }
    ensures reading { D.tells → SameOutside (IsBehindGate area) (D.reading disk.old) (D.reading disk.new) }
    ensures stable { D.tells → OnOk result (IsStable D.Disk disk.new) }
    ensures any_moment { D.tells → Quiet D.Disk (IsBehindGate area) disk.old disk.new }
{
    tally.write(disk, header_of(area), &header_block(epoch))?;
    write_slots(tally, disk, area, kept)?;
    close_slot(tally, disk, area, kept.len() as u16)?;
    tally.sync(disk)?;
    Ok(())
}
