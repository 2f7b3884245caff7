// The slots of an area.
ghost use Rattle.std.specs.Prelude.{◌≡◌, ◌<◌, ◌≤◌, true, false, None, Some, AllPairs, length, IfOk, IsErrOf, MatchOption};
ghost use Rattle.edge_disk.specs.Disk.{HasCause};
ghost use Rattle.image_blocks.specs.Checks.{Bad as BadPlace, body_in, log_fault, log_in};
ghost use Rattle.image_blocks.specs.image_facts.Checks.{count_in};
ghost use Rattle.edge_disk.specs.Counts.{Rose};
ghost use Rattle.image_blocks.specs.image_facts.Layout.{is_open as opens, pool_at, slot_count};
ghost use Rattle.image_blocks.specs.Layout.{slot_gate_at};
ghost use Rattle.log_facts.specs.Logs.{AreInRange, IsOlder};
ghost use Rattle.log_facts.specs.Reads.{ReadsOnly};

use crate::ReadingFault;
use crate::looks::block_of;
use base_types::Rec;
use edge_disk::{Disk, DiskFault};
use image_blocks::{Area, Bad, SLOT_COUNT, body_of, is_open, read_body};
use std::alloc::Global;

// The body of a slot, where its gate is open.
fn slot_of<D: Disk>(disk: &mut D, area: Area, slot: u16) -> Result<Option<[u8; 1024]>, DiskFault>
    requires enough { pool_at ≤ D.block_count disk.old }
    requires slot { slot < slot_count }
    ensures slot { D.tells → IfOk result (λ o. MatchOption o (opens (D.reading disk.old) (slot_gate_at area slot) ≡ false)
        (λ b. (opens (D.reading disk.old) (slot_gate_at area slot) ≡ true) × (b ≡ body_in (D.reading disk.old) area slot))) }
    ensures cause { HasCause (D.faults disk.old) (D.faults disk.new) result }
    ensures same { ReadsOnly D.Disk disk.old disk.new }
{
    let at = body_of(area, slot);
    let gate = block_of(disk, at + 1)?;
    if !is_open(&gate) {
        return Ok(None);
    }
    let body = block_of(disk, at)?;
    Ok(Some(body))
}

// The records of an area's log, in an image of so many blocks.
pub(crate) fn records_of<D: Disk>(
    alloc: Global,
    disk: &mut D,
    count: u32,
    area: Area,
) -> Result<Vec<Rec>, ReadingFault>
    requires { pool_at ≤ D.block_count disk.old }
    ensures recs { D.tells → count ≡ count_in (D.reading disk.old)
        → IfOk result (λ recs. (log_fault (D.reading disk.old) (Some area) ≡ None) × (recs.items ≡ log_in (D.reading disk.old) area)) }
    ensures foreign { D.tells → count ≡ count_in (D.reading disk.old) → (bad : BadPlace) → IsErrOf result (ReadingFault.Foreign bad)
        → log_fault (D.reading disk.old) (Some area) ≡ Some bad }
    ensures few { IfOk result (λ recs. length recs.items ≤ slot_count) }
    ensures in_range { IfOk result (λ recs. AreInRange count recs.items) }
    ensures ascending { IfOk result (λ recs. AllPairs IsOlder recs.items) }
    ensures cause { IsErrOf result ReadingFault.ReadFault → Rose (D.faults disk.old) (D.faults disk.new) }
    ensures same { ReadsOnly D.Disk disk.old disk.new }
{
    let mut recs = Vec::new(alloc);
    for slot in 0..SLOT_COUNT {
        let body = match slot_of(disk, area, slot)? {
            Some(body) => body,
            None => return Ok(recs),
        };
        match read_body(count, &recs, &body) {
            Ok(rec) => recs.push(rec)?,
            Err(place) => {
                let block = body_of(area, slot);
                return Err(ReadingFault::Foreign(Bad { block, place }));
            }
        }
    }
    Ok(recs)
}
