//! Why a source is refused.
ghost use Rattle.std.specs.Prelude.{◌≡◌, IfOk, string_bytes};
ghost use Rattle.script_types.specs.Refusals.{why_number};
ghost use Rattle.script_types.specs.declared.refusals.ScriptFault.TheVariants.{Memory as OutOfMemory};

use std::alloc::{AllocError, AllocFailed, Global};
use std::error::Error;
use std::fmt;

/// What is wrong at a key of a source.
#[derive(Clone, Copy, PartialEq, Eq, Hash, Debug)]
pub enum Why {
    /// The source is no TOML.
    NotToml,
    /// A key that is required is missing.
    Missing,
    /// The value is of another kind.
    Kind,
    /// The text is no name, or the name is taken.
    Name,
    /// No such key, or nothing has the name that the value refers to.
    Unknown,
    /// The number is out of its range.
    Range,
    /// There are more items than are allowed.
    TooMany,
    /// The line spells no instruction.
    BadCode,
    /// The source is longer than is allowed.
    Long,
    /// No number is left for the entity.
    NoRoom,
    /// The name belongs to an entity of the other kind.
    Clash,
}

impl Why {
    /// The number that stands for it in a run's last line.
    pub fn number(self) -> u8
        ensures { result ≡ why_number self }
    {
        match self {
            Why::NotToml => 1,
            Why::Missing => 2,
            Why::Kind => 3,
            Why::Name => 4,
            Why::Unknown => 5,
            Why::Range => 6,
            Why::TooMany => 7,
            Why::BadCode => 8,
            Why::Long => 9,
            Why::NoRoom => 10,
            Why::Clash => 11,
        }
    }
}

/// A refused source: what is wrong, and where.
#[derive(Debug, Drop)]
pub struct Refusal {
    pub why: Why,
    /// The key with dots and positions from 0, or `-` where no key is to blame.
    pub key: String,
}

impl Refusal {
    /// The refusal at this key.
    pub fn new(alloc: Global, why: Why, key: &str) -> Result<Refusal, AllocError>
        ensures why { IfOk result (λ refusal. refusal.why ≡ why) }
        ensures key { IfOk result (λ refusal. string_bytes refusal.key ≡ key.now) }
    {
        Ok(Refusal {
            why,
            key: String::from_str(alloc, key)?,
        })
    }
}

/// Why a source gave no script.
#[derive(Debug, Drop)]
pub enum ScriptFault {
    Refused(Refusal),
    /// Memory ran out, which says nothing of the source.
    Memory,
}

impl fmt::Display for ScriptFault {
    fn fmt<W: fmt::Write>(&self, f: &mut fmt::Formatter<W>) -> fmt::Result {
        match self {
            ScriptFault::Refused(refusal) => {
                let why = refusal.why;
                let key = refusal.key.as_str();
                write!(f, "{why:?} at {key}")
            }
            ScriptFault::Memory => f.write_str("out of memory"),
        }
    }
}

impl Error for ScriptFault {}

impl From<AllocError> for ScriptFault {
    ghost from_gives = { λ _ fault. fault ≡ OutOfMemory };

    fn from(_: AllocError) -> ScriptFault {
        ScriptFault::Memory
    }
}

impl<T: Drop> From<AllocFailed<T>> for ScriptFault {
    ghost from_gives = { λ _ fault. fault ≡ OutOfMemory };

    fn from(_: AllocFailed<T>) -> ScriptFault {
        ScriptFault::Memory
    }
}
