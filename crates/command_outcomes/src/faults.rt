//! The last line of a call that came to no good end.
ghost use Rattle.std.specs.Prelude.{◌≡◌, ◌≤◌, ◌<◌, ◌++◌, OnErr, length};
ghost use Rattle.edge_disk.specs.Counts.{Rose};
ghost use Rattle.edge_streams.specs.Streams.{Puts};
ghost use Rattle.command_outcomes.specs.Faults.{fault_line, line, numbers_line, refusal_head};

use arrayvec::ArrayString;
use edge_disk::{DiskFault, NoBlocks};
use edge_streams::{Sink, SinkFault};
use itoa::Buffer;
use log_reading::ReadingFault;
use script_types::{Refusal, ScriptFault, Why};
use std::alloc::AllocError;

/// A length that the front of no refusal's line exceeds.
const HEAD: usize = 16;

/// A length that no line with two numbers exceeds, in bytes.
pub const FAULT_LINE: usize = 48;

/// Why a call came to no good end, as its last line tells it.
#[derive(Debug, Drop)]
pub enum Fault {
    /// The words of the command are of no known form.
    Usage,
    /// The source holds no script that may run.
    Script(Refusal),
    /// The disk holds no image.
    Foreign { block: u32, place: u16 },
    /// A call of the disk failed.
    DiskFault,
    /// The source could not be read.
    Source,
    /// Memory ran out.
    Memory,
    /// Too few blocks.
    NoBlocks(NoBlocks),
}

impl From<AllocError> for Fault {
    ghost use Rattle.command_outcomes.specs.declared.faults.Fault.TheVariants.{Memory};

    ghost from_gives = { λ _ fault. fault ≡ Memory };

    fn from(_error: AllocError) -> Fault {
        Fault::Memory
    }
}

impl From<DiskFault> for Fault {
    ghost use Rattle.command_outcomes.specs.declared.faults.Fault.TheVariants.{DiskFault};

    ghost from_gives = { λ _ fault. fault ≡ DiskFault };

    fn from(_error: DiskFault) -> Fault {
        Fault::DiskFault
    }
}

impl From<ScriptFault> for Fault {
    ghost use Rattle.command_outcomes.specs.Faults.{fault_of_script};

    ghost from_gives = { λ error fault. fault ≡ fault_of_script error };

    fn from(error: ScriptFault) -> Fault {
        match error {
            ScriptFault::Refused(refusal) => Fault::Script(refusal),
            ScriptFault::Memory => Fault::Memory,
        }
    }
}

impl From<ReadingFault> for Fault {
    ghost use Rattle.command_outcomes.specs.Faults.{fault_of_reading};

    ghost from_gives = { λ error fault. fault ≡ fault_of_reading error };

    fn from(error: ReadingFault) -> Fault {
        match error {
            ReadingFault::Foreign(bad) => Fault::Foreign {
                block: bad.block,
                place: bad.place,
            },
            ReadingFault::ReadFault => Fault::DiskFault,
            ReadingFault::Memory => Fault::Memory,
        }
    }
}

/// The front of a refusal's line, up to the key.
fn refusal_head(why: Why) -> ArrayString<HEAD>
    ensures { result.bytes ≡ refusal_head why }
{
    let mut digits = Buffer::new();
    let mut head = ArrayString::new();
    head.push_str("fault 3 ");
    head.push_str(digits.format(why.number()));
    head.push_str(" ");
    head
}

/// The line of a fault that two numbers tell of, such as the block and the place of a foreign image, or the blocks needed and free. `front` is what
/// stands before the first number.
pub fn two_numbers(front: &str, first: u32, second: u32) -> ArrayString<FAULT_LINE>
    requires short { length front.now ≤ 16 }
    ensures { result.bytes ≡ numbers_line front.now first second }
{
    let mut digits = Buffer::new();
    let mut line = ArrayString::new();
    line.push_str(front);
    line.push_str(digits.format(first));
    line.push_str(" ");
    line.push_str(digits.format(second));
    line.push_str("\n");
    line
}

/// Puts a line in pieces.
#[tactic(auto, using(edge_streams::proofs::Streams::puts))]
fn put_line<W: Sink>(sink: &mut W, front: &str, rest: &str) -> Result<(), SinkFault>
    ensures bytes { Puts (W.held sink.old) (W.held sink.new) result (line (front.now ++ rest.now)) }
    ensures count { W.faults sink.old ≤ W.faults sink.new }
    ensures cause { OnErr result (Rose (W.faults sink.old) (W.faults sink.new)) }
{
    sink.put(front.as_bytes())?;
    sink.put(rest.as_bytes())?;
    sink.put(b"\n")?;
    Ok(())
}

/// Puts the line of a fault: `fault`, the call's status, and what is to be told, each behind a blank. After a fault of the
/// sink a front of the line was put.
pub fn put_fault<W: Sink>(sink: &mut W, fault: &Fault) -> Result<(), SinkFault>
    ensures bytes { Puts (W.held sink.old) (W.held sink.new) result (fault_line fault.now) }
    ensures count { W.faults sink.old ≤ W.faults sink.new }
    ensures cause { OnErr result (Rose (W.faults sink.old) (W.faults sink.new)) }
{
    match fault {
        Fault::Usage => sink.put(b"fault 2 usage\n"),
        Fault::Script(refusal) => put_line(
            sink,
            refusal_head(refusal.why).as_str(),
            refusal.key.as_str(),
        ),
        Fault::Foreign { block, place } => {
            let line = two_numbers("fault 4 ", *block, u32::from(*place));
            sink.put(line.as_str().as_bytes())
        }
        Fault::DiskFault => sink.put(b"fault 5 disk\n"),
        Fault::Source => sink.put(b"fault 6 source\n"),
        Fault::Memory => sink.put(b"fault 8 memory\n"),
        Fault::NoBlocks(blocks) => {
            let line = two_numbers("fault 9 ", blocks.need, blocks.free);
            sink.put(line.as_str().as_bytes())
        }
    }
}
