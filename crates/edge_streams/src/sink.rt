ghost use Rattle.std.specs.Prelude.{◌≤◌, ℕ, List, OnErr, Option};
ghost use Rattle.edge_disk.specs.Counts.{Rose};
ghost use Rattle.edge_streams.specs.Streams.{Puts};

use std::error::Error;
use std::fmt;

/// A sink could not be written, or not wholly.
#[derive(Clone, Copy, Debug, PartialEq, Eq)]
pub struct SinkFault;

impl fmt::Display for SinkFault {
    fn fmt<W: fmt::Write>(&self, f: &mut fmt::Formatter<W>) -> fmt::Result {
        f.write_str("the sink could not be written")
    }
}

impl Error for SinkFault {}

/// Bytes that go out, in order.
pub trait Sink {
    /// The bytes that are held, where the type tells them. A type that tells them goes on telling them.
    ghost held: { Self → Option (List ℕ) };

    /// How often a put has failed. The count stays at 2^64 - 1.
    ghost faults: { Self → ℕ };

    /// Appends all the bytes, or at a fault a prefix of them.
    fn put(&mut self, bytes: &[u8]) -> Result<(), SinkFault>
        ensures bytes { Puts (held self.old) (held self.new) result bytes.now }
        ensures count { faults self.old ≤ faults self.new }
        ensures cause { OnErr result (Rose (faults self.old) (faults self.new)) };
}
