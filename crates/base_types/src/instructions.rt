ghost use Rattle.std.specs.Prelude.{◌≡◌, ◌<◌};
ghost use Rattle.base_types.specs.Replies.{reply_number};

use crate::capabilities::{Right, Rights};
use crate::entities::Entity;

/// An instruction. Registers are 0 to 7 and places 0 to 127; the rights of `Map` and `Lmap` are Read,
/// Write or both. Operands stand in the order of the spelling.
#[derive(Clone, Copy, PartialEq, Eq, Hash, Debug)]
pub enum Instr {
    Set(u8, u64),
    Copy(u8, u8),
    Add(u8, u8),
    Sub(u8, u8),
    Jump(u8),
    Jz(u8, u8),
    Load(u8, u8),
    Store(u8, u8),
    Invoke(u8),
    Leave(u8),
    Return,
    Map(u8, u8, u8, u8, u8, Rights),
    Unmap(u8, u8),
    Lmap(u8, u8, u8, u8, Rights),
    Lunmap(u8),
    Take(u8, u8, u8),
    Give(u8, u8, u8, Rights),
    Drop(u8),
    Make(u8, u8, u8, Option<u8>),
    Spawn(u8, u8),
    Stop(u8),
    Go(u8),
    Snap(u8),
    Stabilise(u8),
    Print(u8),
    Halt,
}

/// What a call of the kernel answers in register 7.
#[derive(Clone, Copy, PartialEq, Eq, Hash, Debug)]
pub enum Reply {
    Ok,
    NoSlot,
    WrongKind,
    NoPage,
    Circle,
    Overlap,
    ListFull,
    NoCaller,
    NoEntry,
    Deep,
    NoNumber,
    NoRegion,
    /// The lowest right that is needed and missing.
    Denied(Right),
}

impl Reply {
    /// The number that stands for the reply: 0 for Ok, and 16 and the right's bit for a denial.
    pub fn number(self) -> u64
        ensures number { result ≡ reply_number self }
        ensures small { result < 24 }
    {
        match self {
            Reply::Ok => 0,
            Reply::NoSlot => 1,
            Reply::WrongKind => 2,
            Reply::NoPage => 3,
            Reply::Circle => 4,
            Reply::Overlap => 5,
            Reply::ListFull => 6,
            Reply::NoCaller => 7,
            Reply::NoEntry => 8,
            Reply::Deep => 9,
            Reply::NoNumber => 10,
            Reply::NoRegion => 11,
            Reply::Denied(right) => 16 + right.bit() as u64,
        }
    }
}

/// One caller in a locus's chain: the container, and the place to which a return leads.
#[derive(Clone, Copy, PartialEq, Eq, Hash, Debug)]
pub struct Call {
    pub container: Entity,
    pub place: u8,
}

/// A walk that has begun: the container of the next look, the address there, and the hops made.
#[derive(Clone, Copy, PartialEq, Eq, Hash, Debug)]
pub struct Walk {
    pub at: Entity,
    pub address: u64,
    pub hops: u8,
}

/// Whether a locus goes on.
#[derive(Clone, Copy, PartialEq, Eq, Hash, Debug)]
pub enum Condition {
    Running,
    /// Until another locus lets it go on.
    Stopped,
    /// For good.
    Halted,
}
