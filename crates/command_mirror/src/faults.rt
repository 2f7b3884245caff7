//! The last line of a mirrored run that came to no good end.
ghost use Rattle.std.specs.Prelude.{◌≡◌, ◌≤◌, OnErr};
ghost use Rattle.edge_disk.specs.Counts.{Rose};
ghost use Rattle.edge_streams.specs.Streams.{Puts};
ghost use Rattle.command_mirror.specs.Lines.{mirror_fault_line, second_line, used_line};

use arrayvec::ArrayString;
use command_outcomes::{FAULT_LINE, Fault, put_fault, two_numbers};
use edge_disk::NoBlocks;
use edge_streams::{Sink, SinkFault};
use itoa::Buffer;

/// Why a mirrored run was stopped at its standby.
#[derive(Clone, Copy, Debug, PartialEq, Eq, Drop)]
pub enum SecondFault {
    /// The disk holds no image with a log.
    Foreign { block: u32, place: u16 },
    /// A call of the disk failed.
    DiskFault,
    /// Memory ran out.
    Memory,
    /// Too few blocks.
    NoBlocks(NoBlocks),
}

/// Why a mirrored run was stopped, and at which node.
#[derive(Debug, Drop)]
pub enum MirrorFault {
    First(Fault),
    Second(SecondFault),
    /// The standby's log has records, so many of them.
    NotEmpty { used: u16 },
}

// The line of a log that has records.
fn used_line(used: u16) -> ArrayString<FAULT_LINE>
    ensures { result.bytes ≡ used_line used }
{
    let mut digits = Buffer::new();
    let mut line = ArrayString::new();
    line.push_str("fault 11 ");
    line.push_str(digits.format(used));
    line.push_str("\n");
    line
}

// The line of a fault of the standby.
fn put_second<W: Sink>(sink: &mut W, fault: SecondFault) -> Result<(), SinkFault>
    ensures bytes { Puts (W.held sink.old) (W.held sink.new) result (second_line fault) }
    ensures count { W.faults sink.old ≤ W.faults sink.new }
    ensures cause { OnErr result (Rose (W.faults sink.old) (W.faults sink.new)) }
{
    match fault {
        SecondFault::Foreign { block, place } => {
            let line = two_numbers("fault 24 ", block, u32::from(place));
            sink.put(line.as_str().as_bytes())
        }
        SecondFault::DiskFault => sink.put(b"fault 25 disk\n"),
        SecondFault::Memory => sink.put(b"fault 28 memory\n"),
        SecondFault::NoBlocks(blocks) => {
            let line = two_numbers("fault 29 ", blocks.need, blocks.free);
            sink.put(line.as_str().as_bytes())
        }
    }
}

/// Puts the line of a fault: `fault`, the call's number, and what is to be told, each behind a blank. After a fault of the sink a front of the line was
/// put.
pub fn put_mirror_fault<W: Sink>(sink: &mut W, fault: &MirrorFault) -> Result<(), SinkFault>
    ensures bytes { Puts (W.held sink.old) (W.held sink.new) result (mirror_fault_line fault.now) }
    ensures count { W.faults sink.old ≤ W.faults sink.new }
    ensures cause { OnErr result (Rose (W.faults sink.old) (W.faults sink.new)) }
{
    match fault {
        MirrorFault::First(fault) => put_fault(sink, fault),
        MirrorFault::Second(fault) => put_second(sink, *fault),
        MirrorFault::NotEmpty { used } => sink.put(used_line(*used).as_str().as_bytes()),
    }
}
