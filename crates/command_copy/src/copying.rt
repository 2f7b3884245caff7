//! A container copied by a command.
ghost use Rattle.std.specs.Prelude.{◌≡◌, ◌≤◌, string_bytes};
ghost use Rattle.edge_disk.specs.Counts.{Rose};
ghost use Rattle.edge_disk.specs.Disks.{HasFailedSince};
ghost use Rattle.edge_disk.specs.declared.disk.NoBlocks.{NoBlocks};
ghost use Rattle.command_outcomes.specs.Seen.{gave, seen_disk, seen_sink};
ghost use Rattle.command_outcomes.specs.Statuses.{IsComplete, ending};
ghost use Rattle.command_promises.specs.Playing.{IsHandedIn};
ghost use Rattle.command_copy.specs.Copies.{CanCopy, CopyLeaves, fault_of_copy};

use crate::lines::put_copied;
use command_outcomes::{Fault, Outcome, Status, empty_outcome, end_with};
use container_copy::{CopyWhy, copy_container};
use edge_disk::Disk;
use edge_streams::Sink;
use edge_watched::{Handed, WatchedDisk};
use std::alloc::Global;
use std::marker::Brand;

// Why a container was not copied, as the command tells it.
fn fault_of(why: CopyWhy) -> Fault
    ensures { result ≡ fault_of_copy why }
{
    match why {
        CopyWhy::Foreign(bad) => Fault::Foreign {
            block: bad.block,
            place: bad.place,
        },
        CopyWhy::Refused(refusal) => Fault::Script(refusal),
        CopyWhy::NoBlocks(blocks) => Fault::NoBlocks(blocks),
        CopyWhy::ReadFault | CopyWhy::WriteFault => Fault::DiskFault,
        CopyWhy::Memory => Fault::Memory,
    }
}

// The copy over a disk that is watched from the call's start on. `N` has how it is handed in.
fn copy_watched<W: Sink, D: Disk, N: Handed>(
    alloc: Global,
    name: &String,
    fresh: &String,
    sink: &mut W,
    disk: D,
) -> Outcome<D>
    requires start { IsHandedIn D.Disk N.start disk }
    ensures leaves { CopyLeaves (string_bytes name.now) (string_bytes fresh.now) (seen_disk D.Disk disk result.disk)
        (seen_sink W.held W.faults sink.old sink.new) (gave result) (ending result.status) }
    ensures complete { CanCopy (string_bytes name.now) (string_bytes fresh.now) (seen_disk D.Disk disk result.disk) → (HasFailedSince D.Disk disk result.disk → ⊥)
        → (Rose (W.faults sink.old) (W.faults sink.new) → ⊥) → ((n : NoBlocks) → result.status ≡ Status.BlocksFull n → ⊥) → IsComplete result.status }
    ensures blocks { D.block_count result.disk ≡ D.block_count disk }
    ensures count { W.faults sink.old ≤ W.faults sink.new }
{
    let watched: WatchedDisk<D, N> = WatchedDisk::new(disk);
    let (name, fresh) = (name.as_str(), fresh.as_str());
    match copy_container(alloc, watched, name, fresh) {
        Ok(copied) => {
            let status = put_copied(sink, fresh, copied.number);
            empty_outcome(alloc, status, copied.disk.into_disk())
        }
        Err(fault) => end_with(alloc, sink, fault.disk.into_disk(), fault_of(fault.why)),
    }
}

/// Makes a second container, as that of the one name, under the other name, in the image that a disk holds, as `copy_container` does, and puts
/// `copied`, the new name and the copy's number. The history is empty, and no manager is asked.
///
/// `Script` comes with the reason against the copy and its key, where nothing was copied; `Foreign` only where the image isn't accepted, with its
/// first bad place; `BlocksFull` where the copy needs more blocks than are free, with both numbers; `DiskFault` only where the disk's count of
/// faults rose, and then the image means what it meant, or that with the copy; `SinkFault` where the copy was made and a put failed.
pub fn copy_image<W: Sink, D: Disk>(
    alloc: Global,
    name: &String,
    fresh: &String,
    sink: &mut W,
    disk: D,
) -> Outcome<D>
    ensures leaves { CopyLeaves (string_bytes name.now) (string_bytes fresh.now) (seen_disk D.Disk disk result.disk)
        (seen_sink W.held W.faults sink.old sink.new) (gave result) (ending result.status) }
    ensures complete { CanCopy (string_bytes name.now) (string_bytes fresh.now) (seen_disk D.Disk disk result.disk) → (HasFailedSince D.Disk disk result.disk → ⊥)
        → (Rose (W.faults sink.old) (W.faults sink.new) → ⊥) → ((n : NoBlocks) → result.status ≡ Status.BlocksFull n → ⊥) → IsComplete result.status }
    ensures blocks { D.block_count result.disk ≡ D.block_count disk }
    ensures count { W.faults sink.old ≤ W.faults sink.new }
{
    copy_watched::<W, D, Brand>(alloc, name, fresh, sink, disk)
}
