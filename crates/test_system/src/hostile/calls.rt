//! The disk that the tests begin with.
use crate::put;
use edge_disk::MemoryDisk;
use std::alloc::Global;
use std::test::Fail;

/// A disk with an empty image on all of its 2,660 blocks, and room for 400 writes and syncs, where these calls fail.
pub(crate) fn formatted(alloc: Global, fails: &[u64]) -> Result<MemoryDisk, Fail> {
    let disk = MemoryDisk::new(alloc, 2660, 400, fails.to_vec(alloc)?)?;
    let (_, outcome) = put(alloc, &["format", "2660"], b"", disk)?;
    Ok(outcome.disk)
}
