//! Where bytes are no blob.
ghost use Rattle.std.specs.Prelude.{◌≡◌, ◌≤◌, ◌<◌, ◌-◌, ◌^◌, length};

use std::error::Error;
use std::fmt;

/// Bytes that are no blob, and the first byte at which no spelling goes on.
#[derive(Clone, Copy, PartialEq, Eq, Debug)]
pub enum BadBlob {
    /// No whole spelling ends before this place. Where the place is the number of bytes, more are wanted.
    Malformed(u32),
    /// A whole spelling ends before this place, and bytes follow it.
    TooLong(u32),
}

impl fmt::Display for BadBlob {
    fn fmt<W: fmt::Write>(&self, f: &mut fmt::Formatter<W>) -> fmt::Result {
        match *self {
            BadBlob::Malformed(place) => write!(f, "no blob is spelled so from byte {place} on"),
            BadBlob::TooLong(place) => write!(f, "the blob ends before byte {place}"),
        }
    }
}

impl Error for BadBlob {}

/// The place of the first of these bytes, with which the others end.
pub fn place_of(bytes: &[u8], rest: &[u8]) -> u32
    requires within { length rest.now ≤ length bytes.now }
    requires near { length bytes.now - length rest.now < 2 ^ 32 }
    ensures { result ≡ length bytes.now - length rest.now }
{
    (bytes.len() - rest.len()) as u32
}
