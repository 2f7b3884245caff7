// Reading a source to its end.
ghost use Rattle.std.specs.Prelude.{◌≡◌, ◌<◌, ◌≤◌, length, vec_len, IfOk, IfErr, IfSome, OnOk, IsErrOf};
ghost use Rattle.std.specs.Io.KnownBytes.{Consumes, IsAtEnd};
ghost use Rattle.edge_disk.specs.Counts.{Rose};
ghost use Rattle.edge_streams.specs.Reading.{IsFault, TakesAtMost, most_taken};
ghost use Rattle.edge_streams.specs.declared.reading.ReadStop.TheVariants.{Source as FromSource, Memory as OutOfMemory};

use crate::{Source, SourceFault};
use std::alloc::{AllocError, Global};
use std::error::Error;
use std::fmt;

/// How many bytes are asked for at a time, so how many at most are taken past a limit.
pub const PIECE_BYTES: usize = 4096;

/// Why a source was not read to its end.
#[derive(Clone, Copy, Debug, PartialEq, Eq)]
pub enum ReadStop {
    Source(SourceFault),
    Memory,
    /// More bytes came than are allowed.
    Long,
}

impl fmt::Display for ReadStop {
    fn fmt<W: fmt::Write>(&self, f: &mut fmt::Formatter<W>) -> fmt::Result {
        match self {
            ReadStop::Source(fault) => fault.fmt(f),
            ReadStop::Memory => f.write_str("out of memory"),
            ReadStop::Long => f.write_str("the source is too long"),
        }
    }
}

impl Error for ReadStop {}

impl From<SourceFault> for ReadStop {
    ghost from_gives = { λ fault stop. stop ≡ FromSource fault };

    fn from(fault: SourceFault) -> ReadStop {
        ReadStop::Source(fault)
    }
}

impl From<AllocError> for ReadStop {
    ghost from_gives = { λ _ stop. stop ≡ OutOfMemory };

    fn from(_: AllocError) -> ReadStop {
        ReadStop::Memory
    }
}

/// Reads a source to its end, which has to come within `limit` bytes. It reserves `limit` bytes before it takes the
/// first, so nothing is taken where memory is wanting. Where more bytes come it stops: no byte is taken behind the piece
/// that goes past the limit, and no fault from there is met. After `Long` or a fault what was taken is lost.
pub fn read_all<R: Source>(alloc: Global, source: &mut R, limit: usize) -> Result<Vec<u8>, ReadStop>
    // All that was left, and nothing is left now.
    ensures whole { IfOk result (λ bytes. IfSome (R.left source.old) (λ left. bytes.items ≡ left)) }
    ensures taken { IfOk result (λ bytes. Consumes (R.left source.old) (R.left source.new) bytes.items) }
    ensures end { OnOk result (IfSome (R.left source.old) (λ _. IsAtEnd (R.left source.new))) }
    ensures within { IfOk result (λ bytes. vec_len bytes ≤ limit) }

    // When each error comes, and how much was taken then.
    ensures long { IsErrOf result ReadStop.Long → IfSome (R.left source.old) (λ left. limit < length left) }
    ensures fault { IfErr result (λ stop. IsFault stop → Rose (R.faults source.old) (R.faults source.new)) }
    ensures memory { IsErrOf result ReadStop.Memory → source.new ≡ source.old }

    ensures stops { IfErr result (λ stop. TakesAtMost (R.left source.old) (R.left source.new) (most_taken limit stop)) }

    // At any outcome.
    ensures count { R.faults source.old ≤ R.faults source.new }
{
    let mut bytes = Vec::with_capacity(alloc, limit)?;
    let mut piece = [0u8; PIECE_BYTES];
    loop {
        let n = source.take(&mut piece)?;
        if n == 0 {
            return Ok(bytes);
        }
        if n > limit - bytes.len() {
            return Err(ReadStop::Long);
        }
        bytes.extend_from_slice(&piece[..n]).unwrap();
    }
}
