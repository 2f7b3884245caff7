//! An empty image, made by a command.
ghost use Rattle.std.specs.Prelude.{◌≡◌, ◌≤◌};
ghost use Rattle.image_format.specs.image_facts.Layout.{least_blocks, most_blocks};
ghost use Rattle.command_outcomes.specs.Seen.{gave, seen_disk, seen_sink};
ghost use Rattle.command_outcomes.specs.Statuses.{ending};
ghost use Rattle.command_format.specs.Formats.{FormatLeaves, fault_of_format};

use command_outcomes::{Fault, Outcome, Status, empty_outcome, end_with};
use edge_disk::Disk;
use edge_streams::Sink;
use image_format::{FormatWhy, format};
use std::alloc::Global;

// Why an empty image was not made, as the command tells it.
fn fault_of(why: FormatWhy) -> Fault
    ensures { result ≡ fault_of_format why }
{
    match why {
        FormatWhy::Small(blocks) => Fault::NoBlocks(blocks),
        FormatWhy::WriteFault => Fault::DiskFault,
    }
}

/// Makes an empty image of so many blocks on a disk. A disk with fewer blocks is told before anything is written.
///
/// Done puts no line. After a fault of the disk no image may be left, the one of before or the empty one.
pub fn format_image<W: Sink, D: Disk>(
    alloc: Global,
    blocks: u32,
    sink: &mut W,
    disk: D,
) -> Outcome<D>
    requires least { least_blocks ≤ blocks }
    requires most { blocks ≤ most_blocks }
    ensures leaves { FormatLeaves blocks (seen_disk D.Disk disk result.disk)
        (seen_sink W.held W.faults sink.old sink.new) (gave result) (ending result.status) }
    ensures count { D.block_count result.disk ≡ D.block_count disk }
    ensures sink_count { W.faults sink.old ≤ W.faults sink.new }
{
    match format(disk, blocks) {
        Ok(disk) => empty_outcome(alloc, Status::Done, disk),
        Err(fault) => end_with(alloc, sink, fault.disk, fault_of(fault.why)),
    }
}
