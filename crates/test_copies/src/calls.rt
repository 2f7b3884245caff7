//! What the tests call, and what images show before and behind a copy.
use container_copy::{Copied, CopyFault, CopyWhy, copy_container};
use edge_disk::{MemoryDisk, NoBlocks};
use std::alloc::Global;
use std::test::Fail;
use test_replays::{facts_of, shown};

/// What the image of `with_pages` with one page shows.
pub(crate) const BEFORE: &str = "container a 1 0 1 -
word a 0 5
locus l a 2 running 2 5 0 0 0 0 0 0 0
";

/// And what it shows with a copy `b` of `a`.
pub(crate) const COPIED: &str = "container a 1 0 1 -
word a 0 5
container b 1 0 1 -
word b 0 5
locus l a 2 running 2 5 0 0 0 0 0 0 0
";

/// What the image on a disk shows.
pub(crate) fn shown_on(alloc: Global, disk: &mut MemoryDisk) -> Result<String, Fail> {
    let facts = facts_of(alloc, disk)?;
    shown(alloc, &facts)
}

/// A copy that is made.
pub(crate) fn copied(
    alloc: Global,
    disk: MemoryDisk,
    name: &str,
    fresh: &str,
) -> Result<Copied<MemoryDisk>, Fail> {
    match copy_container(alloc, disk, name, fresh) {
        Ok(copied) => Ok(copied),
        Err(_) => Err(Fail::from("a copy")),
    }
}

/// A copy that isn't made.
pub(crate) fn fault_of(
    alloc: Global,
    disk: MemoryDisk,
    name: &str,
    fresh: &str,
) -> Result<CopyFault<MemoryDisk>, Fail> {
    match copy_container(alloc, disk, name, fresh) {
        Ok(_) => Err(Fail::from("a copy that isn't made")),
        Err(fault) => Ok(fault),
    }
}

/// How many blocks are wanted, where they are too few.
pub(crate) fn wanted(why: &CopyWhy) -> Option<NoBlocks> {
    match why {
        CopyWhy::NoBlocks(few) => Some(*few),
        _ => None,
    }
}
