ghost use Rattle.std.specs.Prelude.{◌<◌, ◌≤◌, ℕ, List, length, IfOk, OnErr, Option};
ghost use Rattle.edge_disk.specs.Counts.{Rose};
ghost use Rattle.edge_streams.specs.Streams.{Takes};

use std::error::Error;
use std::fmt;

/// A source could not be read.
#[derive(Clone, Copy, Debug, PartialEq, Eq)]
pub struct SourceFault;

impl fmt::Display for SourceFault {
    fn fmt<W: fmt::Write>(&self, f: &mut fmt::Formatter<W>) -> fmt::Result {
        f.write_str("the source could not be read")
    }
}

impl Error for SourceFault {}

/// Bytes that come in, in order.
pub trait Source {
    /// The bytes that are left, where the type tells them. A type that tells them goes on telling them.
    ghost left: { Self → Option (List ℕ) };

    /// How often a take has failed. The count stays at 2^64 - 1.
    ghost faults: { Self → ℕ };

    /// Moves the first bytes that are left into the front of `out`, and answers how many. It answers 0 at the end, and
    /// only there. What stands in `out` behind them, and anywhere in it after a fault, is not said.
    fn take(&mut self, out: &mut [u8]) -> Result<usize, SourceFault>
        requires { 0 < length out.old }
        ensures within { IfOk result (λ n. n ≤ length out.new) }
        ensures bytes { Takes (left self.old) (left self.new) result out.new }
        ensures count { faults self.old ≤ faults self.new }
        ensures cause { OnErr result (Rose (faults self.old) (faults self.new)) };
}
