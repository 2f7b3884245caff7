//! Bytes and bounds that blobs of each kind keep.

/// The first byte of an atlas's blob.
pub const ATLAS_BLOB: u8 = 0;
/// The first byte of a container's blob.
pub const CONTAINER_BLOB: u8 = 1;
/// The first byte of a locus's blob in the short form.
pub const SHORT_LOCUS: u8 = 2;
/// The first byte of a locus's blob in the long form, which has the number of printed values too.
pub const LONG_LOCUS: u8 = 3;
/// The calls in the short form at most.
pub const SHORT_CALLS: u8 = 32;
/// The private regions in the short form at most.
pub const SHORT_PRIVATES: u8 = 8;
/// What stands for a container without an entry.
pub const NO_ENTRY: u8 = 255;
