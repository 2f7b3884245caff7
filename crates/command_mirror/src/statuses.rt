//! How a mirrored run ended.
ghost use Rattle.std.specs.Prelude.{◌≡◌};
ghost use Rattle.command_mirror.specs.Statuses.{first_why, mirror_number, mirror_status, second_why, why_number};

use crate::faults::{MirrorFault, SecondFault};
use base_types::Entry;
use command_outcomes::Fault;
use edge_disk::NoBlocks;
use script_types::Refusal;

/// Why a mirrored run was stopped at one of its nodes.
#[derive(Debug, Drop)]
pub enum MirrorWhy {
    /// The source is refused, or its script does not fit the image. Number 3.
    Script(Refusal),
    /// The disk holds no image: its first bad place, by block and by byte in that block. Number 4.
    Foreign { block: u32, place: u16 },
    /// A call of the disk failed. Number 5.
    DiskFault,
    /// The source could not be read. Number 6.
    SourceFault,
    /// The sink could not take the lines. Number 7.
    SinkFault,
    /// Memory ran out. Number 8.
    Memory,
    /// Too few blocks: how many are needed, and how many there are. Number 9.
    BlocksFull(NoBlocks),
}

impl MirrorWhy {
    /// The number that stands for it at the first node.
    pub fn number(&self) -> u8
        ensures { result ≡ why_number self.now }
    {
        match self {
            MirrorWhy::Script(_) => 3,
            MirrorWhy::Foreign { .. } => 4,
            MirrorWhy::DiskFault => 5,
            MirrorWhy::SourceFault => 6,
            MirrorWhy::SinkFault => 7,
            MirrorWhy::Memory => 8,
            MirrorWhy::BlocksFull(_) => 9,
        }
    }
}

/// How a mirrored run ended.
#[derive(Debug, Drop)]
pub enum MirrorStatus {
    /// The run came to its end, all its rounds were made, and all its lines put. Number 0.
    Done,
    /// It was stopped at the first node, with the numbers of a run.
    First(MirrorWhy),
    /// It was stopped at the standby. Its numbers are 20 more.
    Second(MirrorWhy),
    /// The standby's log has records, so many of them. Number 11.
    NotEmpty(u16),
}

impl MirrorStatus {
    /// The number that stands for it, which is also the program's exit status.
    pub fn number(&self) -> u8
        ensures { result ≡ mirror_number self.now }
    {
        match self {
            MirrorStatus::Done => 0,
            MirrorStatus::First(why) => why.number(),
            MirrorStatus::Second(why) => why.number() + 20,
            MirrorStatus::NotEmpty(_) => 11,
        }
    }
}

/// What a mirrored run gives back.
#[derive(Debug, Drop)]
pub struct MirrorOutcome<D, E> {
    pub status: MirrorStatus,
    /// The entries of the run in order. None where nothing was run.
    pub history: Vec<Entry>,
    /// For each Snap and Stable of the history how many writes and syncs the call had begun on the first disk when its records stood.
    pub marks: Vec<u64>,
    /// How many commits the standby took.
    pub kept: u64,
    /// How many commits the first node has completed, those of its opened image with them. 0 where nothing was run.
    pub made: u64,
    pub first: D,
    pub second: E,
}

// The first node's status of a fault.
fn first_why(fault: Fault) -> MirrorWhy
    ensures { result ≡ first_why fault }
{
    match fault {
        Fault::Script(refusal) => MirrorWhy::Script(refusal),
        Fault::Foreign { block, place } => MirrorWhy::Foreign { block, place },
        Fault::DiskFault => MirrorWhy::DiskFault,
        Fault::Source => MirrorWhy::SourceFault,
        // no word is read here
        Fault::Memory | Fault::Usage => MirrorWhy::Memory,
        Fault::NoBlocks(blocks) => MirrorWhy::BlocksFull(blocks),
    }
}

// The standby's.
fn second_why(fault: SecondFault) -> MirrorWhy
    ensures { result ≡ second_why fault }
{
    match fault {
        SecondFault::Foreign { block, place } => MirrorWhy::Foreign { block, place },
        SecondFault::DiskFault => MirrorWhy::DiskFault,
        SecondFault::Memory => MirrorWhy::Memory,
        SecondFault::NoBlocks(blocks) => MirrorWhy::BlocksFull(blocks),
    }
}

/// The status of a fault.
pub(crate) fn status_of(fault: MirrorFault) -> MirrorStatus
    ensures { result ≡ mirror_status fault }
{
    match fault {
        MirrorFault::First(fault) => MirrorStatus::First(first_why(fault)),
        MirrorFault::Second(fault) => MirrorStatus::Second(second_why(fault)),
        MirrorFault::NotEmpty { used } => MirrorStatus::NotEmpty(used),
    }
}
