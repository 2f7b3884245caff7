//! The limits of the abstract kernel that several crates speak of, each once.

/// The number of the first container; the atlas has number 0.
pub const FIRST_CONTAINER: u8 = 1;
/// How many containers there can be at most: numbers 1 to 40.
pub const MOST_CONTAINERS: usize = 40;
/// The number of the first locus.
pub const FIRST_LOCUS: u8 = 41;
/// How many loci there can be at most: numbers 41 to 63.
pub const MOST_LOCI: usize = 23;
/// How many entities there can be at most, with the atlas.
pub const MOST_ENTITIES: u8 = 64;
/// The words of a page.
pub const PAGE_WORDS: u64 = 128;
/// The pages of a container at most.
pub const MOST_PAGES: u64 = 256;
/// The regions of a container at most.
pub const MOST_REGIONS: usize = 16;
/// The slots for capabilities of a container or locus.
pub const MOST_CAPS: usize = 32;
/// The private regions of a locus at most.
pub const MOST_PRIVATES: usize = 16;
/// The calls in a locus's chain at most.
pub const MOST_CALLS: usize = 64;
/// The hops of a walk at most.
pub const MOST_HOPS: u8 = 63;
/// Where a locus's count of printed values stands still.
pub const MOST_PRINTED: u64 = 1 << 62;
/// The bytes of a script at most.
pub const MOST_SCRIPT_BYTES: usize = 1_048_576;
