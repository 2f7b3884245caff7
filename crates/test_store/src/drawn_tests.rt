// Commits that are drawn, beside a plain list of their records.
use crate::own::{OwnStore, Unmade};
use crate::test_stores::empty_store;
use base_bytes::Blob;
use base_types::{Cut, Entity, Rec};
use data_cuts::{MOST_RECORDS, greatest, is_ascending};
use edge_disk::{MemoryDisk, NoBlocks};
use rand_core::utils::NextWord;
use rand_pcg::Pcg32;
use std::alloc::Global;
use std::process::Abort;
use std::test::Fail;
use store_snapshots::{Store, StoreFault};

// How many commits are drawn.
const DRAWS: u32 = 60;

// The blocks of the pool of an image of 2,600.
const POOL: u32 = 35;

// The entities of the drawn records.
const ENTITIES: [u8; 3] = [0, 1, 41];

// A number below another one, at least 1.
fn below(draws: &mut Pcg32, end: u64) -> u64 {
    u64::from(draws.next_word()) % end.max(1)
}

// The newest version of an entity, 0 for none.
fn newest(recs: &[Rec], entity: Entity) -> u64 {
    let mut version = 0;
    for rec in recs {
        if rec.entity == entity {
            version = rec.version;
        }
    }
    version
}

// A record of one of the entities, newer than its records among these. It may need a version of another entity that has no record yet.
fn drawn_record(draws: &mut Pcg32, recs: &[Rec]) -> Rec {
    let entity = Entity::of(ENTITIES[below(draws, 3) as usize % 3]);
    let mut stamp = [0; 64];
    for number in ENTITIES {
        let last = newest(recs, Entity::of(number % 64));
        stamp[number as usize % 64] = below(draws, last.saturating_add(3));
    }
    let step = below(draws, 3).saturating_add(1);
    let version = newest(recs, entity).saturating_add(step);
    stamp[entity.number() as usize] = version;
    let length = (below(draws, 8192) % 8192) as u32 + 1;
    Rec {
        entity,
        version,
        stamp,
        length,
        blocks: [0; 8],
    }
}

// Whether a record is at or above the choice.
fn is_kept(rec: &Rec, cut: &Cut) -> bool {
    cut.0[rec.entity.number() as usize] <= rec.version
}

// How many blocks the blob of a record takes.
fn blocks_of(rec: &Rec) -> u32 {
    rec.length.div_ceil(1024)
}

// How many blocks are free beside the blobs of the records at or above the choice.
fn free_beside(recs: &[Rec], cut: &Cut) -> u32 {
    let mut free = POOL;
    for rec in recs {
        if is_kept(rec, cut) {
            free = free.saturating_sub(blocks_of(rec));
        }
    }
    free
}

// The greatest closed choice.
fn choice_of(rt: &impl Abort, recs: &[Rec]) -> Cut {
    assert!(rt; recs.len() <= MOST_RECORDS && is_ascending(recs));
    greatest(recs)
}

// So many bytes of a record's version.
fn spell(rec: &Rec, blob: &mut Blob) {
    blob.clear();
    for _byte in 0..rec.length.min(8192) {
        if blob.len() < 8192 {
            blob.push((rec.version % 256) as u8);
        }
    }
}

// What a commit of the record answers where so many blocks are free.
fn answer_for(rec: &Rec, free: u32) -> Result<(), Unmade> {
    let need = blocks_of(rec);
    if free < need {
        return Err(Unmade::Failed(StoreFault::NoBlocks(NoBlocks { need, free })));
    }
    Ok(())
}

// Whether the records are these, wherever their blobs stand.
fn are_same(recs: &[Rec], plain: &[Rec]) -> bool {
    if recs.len() != plain.len() {
        return false;
    }
    for (rec, other) in recs.iter().zip(plain) {
        let same = (rec.entity, rec.version, rec.length)
            == (other.entity, other.version, other.length);
        if !same || rec.stamp != other.stamp {
            return false;
        }
    }
    true
}

// The store has these records, the choice over them, and so many free blocks.
fn shows(rt: &impl Abort, store: &Store<MemoryDisk>, plain: &[Rec]) {
    let cut = choice_of(rt, plain);
    assert!(rt; store.cut() == cut);
    assert!(rt; store.free() == free_beside(plain, &cut));
    assert!(rt; are_same(store.recs(), plain));
}

// Draws commits, and keeps a list of the records that were made.
fn commit_drawn(
    rt: &impl Abort,
    alloc: Global,
    own: &mut OwnStore<MemoryDisk>,
) -> Result<Vec<Rec>, Fail> {
    let mut draws = Pcg32::new(42, 54);
    let mut blob = Blob::new(alloc)?;
    let mut plain = Vec::new(alloc);
    for _made in 0..DRAWS {
        let rec = drawn_record(&mut draws, &plain);
        spell(&rec, &mut blob);
        let answer = answer_for(&rec, free_beside(&plain, &choice_of(rt, &plain)));
        let made = own.commit(rec.entity, rec.version, &rec.stamp, &blob);
        assert!(rt; made == answer);
        if made.is_ok() {
            plain.push(rec)?;
        }
        shows(rt, own.store(), &plain);
    }
    Ok(plain)
}

// The blobs of the records at or above the choice are spelt as they were committed.
fn blobs_are(rt: &impl Abort, store: &mut Store<MemoryDisk>, recs: &[Rec], blobs: (Blob, Blob)) {
    let cut = choice_of(rt, recs);
    let (mut found, mut expected) = blobs;
    for rec in recs {
        if is_kept(rec, &cut) {
            spell(rec, &mut expected);
            assert!(rt; store.read_blob(rec, &mut found) == Ok(None));
            assert!(rt; found.as_slice() == expected.as_slice());
        }
    }
}

#[test]
fn drawn_commits_leave_what_a_plain_list_has(rt: HostRuntime) -> Result<(), Fail> {
    let alloc = rt.alloc();
    let mut own = empty_store(alloc, 2600, 900)?;
    let plain = commit_drawn(&rt, alloc, &mut own)?;
    // The others are refused for want of blocks.
    assert!(rt; plain.len() == 47);
    let mut store = Store::open(alloc, own.into_disk()).ok().ok_or("a store")?;
    assert!(rt; are_same(store.recs(), &plain));
    let recs = store.recs().to_vec(alloc)?;
    let blobs = (Blob::new(alloc)?, Blob::new(alloc)?);
    blobs_are(&rt, &mut store, &recs, blobs);
    Ok(())
}
