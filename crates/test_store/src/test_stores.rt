// Stores over images in memory, and what tests commit to them.
ghost use Rattle.std.specs.Prelude.{◌≤◌};
ghost use Rattle.image_blocks.specs.image_facts.Layout.{least_blocks, most_blocks};

use crate::own::OwnStore;
use base_bytes::Blob;
use base_types::{Entity, Rec};
use edge_disk::MemoryDisk;
use image_format::format;
use std::alloc::Global;
use std::process::Abort;
use std::test::Fail;
use store_snapshots::Store;

// A store over an empty image of so many blocks, which takes ten writes and syncs, on a disk that keeps so many of them.
pub(crate) fn empty_store(
    alloc: Global,
    blocks: u32,
    room: u32,
) -> Result<OwnStore<MemoryDisk>, Fail>
    requires { (least_blocks ≤ blocks) × (blocks ≤ most_blocks) }
{
    let disk = MemoryDisk::new(alloc, blocks, room, Vec::new(alloc))?;
    let disk = format(disk, blocks).ok().ok_or("an image")?;
    let own = OwnStore::open(alloc, disk).ok().ok_or("a store")?;
    Ok(own)
}

// A stamp that is 0 but for this entity.
pub(crate) fn stamp_of(entity: Entity, version: u64) -> [u64; 64] {
    let mut stamp = [0; 64];
    stamp[entity.number() as usize] = version;
    stamp
}

// Commits entity 41 at the versions from the first up to the last. The blob of each spells its version.
pub(crate) fn commit_versions(
    rt: &impl Abort,
    own: &mut OwnStore<MemoryDisk>,
    blob: &mut Blob,
    first: u64,
    last: u64,
) {
    let entity = Entity::of(41);
    for version in first..=last {
        blob.clear();
        blob.put_u64(version);
        assert!(rt;
            own.commit(entity, version, &stamp_of(entity, version), blob) == Ok(()),
            "at {version}"
        );
    }
}

// The versions of the first record and of the last.
pub(crate) fn ends_of(recs: &[Rec]) -> Option<(u64, u64)> {
    match (recs.first(), recs.last()) {
        (Some(first), Some(last)) => Some((first.version, last.version)),
        _ => None,
    }
}

// The blob of the last record spells its version.
pub(crate) fn last_is_spelt(rt: &impl Abort, store: &mut Store<MemoryDisk>, blob: &mut Blob) {
    let rec = match store.recs().last() {
        Some(rec) => *rec,
        None => return,
    };
    assert!(rt; store.read_blob(&rec, blob) == Ok(None));
    assert!(rt; blob.as_slice() == rec.version.to_le_bytes().as_slice());
}
