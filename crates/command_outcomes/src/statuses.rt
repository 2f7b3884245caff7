//! How a call ended.
ghost use Rattle.std.specs.Prelude.{◌≡◌};
ghost use Rattle.command_outcomes.specs.Statuses.{status_by, status_number};

use crate::faults::Fault;
use base_types::Entry;
use edge_disk::NoBlocks;
use script_types::Refusal;

/// How a call ended. The numbers are those that its last line tells.
#[derive(Debug, Drop)]
pub enum Status {
    /// The command came to its end, and all its lines were put. Number 0.
    Done,
    /// The words are of no known form. Number 2.
    Usage,
    /// The source is refused, or its script does not fit the image. Number 3.
    Script(Refusal),
    /// The disk holds no image: its first bad place, by block and by byte in that block. Number 4.
    Foreign { block: u32, place: u16 },
    /// A call of the disk failed. Number 5.
    DiskFault,
    /// The source could not be read. Number 6.
    SourceFault,
    /// The sink could not take the lines. Number 7.
    SinkFault,
    /// Memory ran out. Number 8.
    Memory,
    /// Too few blocks: how many are needed, and how many there are. Number 9.
    BlocksFull(NoBlocks),
    /// A trace that is that of no legal history goes wrong in this line, from 1 on: the birth or step that the line names, where it may be
    /// next. Number 10.
    TraceWrong { line: u64, want: Option<Entry> },
}

impl Status {
    /// The number that stands for it, which is also the program's exit status.
    pub fn number(&self) -> u8
        ensures { result ≡ status_number self.now }
    {
        match self {
            Status::Done => 0,
            Status::Usage => 2,
            Status::Script(_) => 3,
            Status::Foreign { .. } => 4,
            Status::DiskFault => 5,
            Status::SourceFault => 6,
            Status::SinkFault => 7,
            Status::Memory => 8,
            Status::BlocksFull(_) => 9,
            Status::TraceWrong { .. } => 10,
        }
    }
}

/// What a call gives back.
#[derive(Debug, Drop)]
pub struct Outcome<D> {
    /// How the call ended.
    pub status: Status,
    /// The entries of its run in order. None for a command that runs nothing.
    pub history: Vec<Entry>,
    /// For each Snap and Stable of the history how many writes and syncs the call had begun on the disk when its records stood.
    pub marks: Vec<u64>,
    /// The disk that was handed in.
    pub disk: D,
}

/// The status of a call that gave no output.
pub fn status_of(fault: Fault) -> Status
    ensures { result ≡ status_by fault }
{
    match fault {
        Fault::Usage => Status::Usage,
        Fault::Script(refusal) => Status::Script(refusal),
        Fault::Foreign { block, place } => Status::Foreign { block, place },
        Fault::DiskFault => Status::DiskFault,
        Fault::Source => Status::SourceFault,
        Fault::Memory => Status::Memory,
        Fault::NoBlocks(blocks) => Status::BlocksFull(blocks),
    }
}
