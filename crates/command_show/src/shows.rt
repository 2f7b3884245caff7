//! What an image means, shown.
ghost use Rattle.std.specs.Prelude.{◌≡◌, ◌≤◌, ◌<◌, ◌^◌, ℕ};
ghost use Rattle.edge_disk.specs.Counts.{Rose};
ghost use Rattle.edge_disk.specs.Disks.{HasFailedSince};
ghost use Rattle.image_reading.specs.plain_states.Plains.{cells_of};
ghost use Rattle.image_reading.specs.model_kernel.Soundness.{IsSound};
ghost use Rattle.image_reading.specs.model_kernel.State.{Supply};
ghost use Rattle.image_reading.specs.image_meaning.Meaning.{Accepted};
ghost use Rattle.image_reading.specs.plain_show.Show.{shown};
ghost use Rattle.command_outcomes.specs.Ends.{IsPut};
ghost use Rattle.command_outcomes.specs.Seen.{gave, seen_disk, seen_sink};
ghost use Rattle.command_outcomes.specs.Statuses.{IsComplete, ending};
ghost use Rattle.command_show.specs.Shows.{ShowLeaves};

use command_outcomes::{Fault, Outcome, Status, empty_outcome, end_with};
use edge_disk::Disk;
use edge_streams::Sink;
use image_reading::{ImageFacts, read_image, write_show};
use std::alloc::Global;

// Shows the state that was read, and tells how that ended.
fn put_show<W: Sink, S: Fn(u64, u32, u16) -> u64>(
    sink: &mut W,
    facts: &ImageFacts,
    supply: &S,
) -> Status
    ghost s: { Supply }
    requires callable { (t p a : ℕ) → t < 2 ^ 64 → p < 256 → a < 128 → S.pre supply.now t p a }
    requires answers { (t p a r : ℕ) → t < 2 ^ 64 → p < 256 → a < 128 → S.post supply.now t p a r → r ≡ s t p a }
    requires sound { IsSound (cells_of s facts.now.state) }
    ensures put { IsPut (seen_sink W.held W.faults sink.old sink.new) (shown s (cells_of s facts.now.state)) result }
    ensures count { W.faults sink.old ≤ W.faults sink.new }
{
    if write_show(sink, facts, supply).is_ok() {
        Status::Done
    } else {
        Status::SinkFault
    }
}

/// Puts the text of the state that the image on a disk means. The disk is only read: no write and no sync is begun.
///
/// `Foreign` comes exactly where the image isn't accepted, with its first bad place; `DiskFault` only where a read failed, and
/// `SinkFault` only where a put failed, and then a front of the text was put.
pub fn show_image<W: Sink, D: Disk, S: Fn(u64, u32, u16) -> u64>(
    alloc: Global,
    sink: &mut W,
    mut disk: D,
    supply: &S,
) -> Outcome<D>
    ghost s: { Supply }
    requires callable { (t p a : ℕ) → t < 2 ^ 64 → p < 256 → a < 128 → S.pre supply.now t p a }
    requires answers { (t p a r : ℕ) → t < 2 ^ 64 → p < 256 → a < 128 → S.post supply.now t p a r → r ≡ s t p a }
    ensures leaves { ShowLeaves s (seen_disk D.Disk disk result.disk)
        (seen_sink W.held W.faults sink.old sink.new) (gave result) (ending result.status) }
    ensures complete { D.tells → Accepted (D.reading disk) → (HasFailedSince D.Disk disk result.disk → ⊥)
        → (Rose (W.faults sink.old) (W.faults sink.new) → ⊥) → IsComplete result.status }
    ensures count { W.faults sink.old ≤ W.faults sink.new }
{
    match read_image(alloc, &mut disk, supply) {
        Ok(facts) => {
            let status = put_show(sink, &facts, supply);
            empty_outcome(alloc, status, disk)
        }
        Err(fault) => end_with(alloc, sink, disk, Fault::from(fault)),
    }
}
