ghost use Rattle.std.specs.Prelude.{◌≤◌};
ghost use Rattle.image_blocks.specs.image_facts.Layout.{least_blocks, most_blocks};

use crate::cut_finder_tests::put_three;
use crate::test_stores::{commit_versions, empty_store, ends_of, last_is_spelt, stamp_of};
use base_bytes::Blob;
use base_types::{Cut, Entity};
use data_cuts::{MOST_RECORDS, greatest, is_ascending};
use edge_disk::{MemoryDisk, Torn};
use image_blocks::Area;
use log_reading::read_log;
use std::alloc::Global;
use std::process::Abort;
use std::test::Fail;
use store_snapshots::Store;

// Commits of entity 41, each of which takes six writes and syncs, on an empty image of so many blocks; then its log has these records.
fn commits_leave(
    rt: &impl Abort,
    alloc: Global,
    image: (u32, u32),
    commits: u64,
    log: (Area, u64, (u64, u64)),
) -> Result<(), Fail>
    requires { (least_blocks ≤ image.0) × (image.0 ≤ most_blocks) }
{
    let (blocks, room) = image;
    let (area, epoch, ends) = log;
    let mut own = empty_store(alloc, blocks, room)?;
    commit_versions(rt, &mut own, &mut Blob::new(alloc)?, 1, commits);
    assert!(rt; ends_of(own.store().recs()) == Some(ends));
    let found = read_log(alloc, &mut own.into_disk()).ok().ok_or("a log")?;
    assert!(rt; found.area == area);
    assert!(rt; found.epoch == epoch);
    assert!(rt; ends_of(&found.recs) == Some(ends));
    Ok(())
}

#[test]
fn the_641st_record_turns_the_log(rt: HostRuntime) -> Result<(), Fail> {
    let log = (Area::B, 2, (640, 641));
    commits_leave(&rt, rt.alloc(), (4096, 4000), 641, log)
}

// The log is turned at records 641, 1,280 and each 639th behind these, seven times.
#[test]
fn five_thousand_records_go_into_35_blocks(rt: HostRuntime) -> Result<(), Fail> {
    let log = (Area::B, 8, (4474, 5000));
    commits_leave(&rt, rt.alloc(), (2600, 30_200), 5000, log)
}

// The choice is the one given, which is the greatest over the log.
fn cut_is(rt: &impl Abort, store: &Store<MemoryDisk>, versions: [u64; 3]) {
    let mut all = [0; 64];
    put_three(&mut all, versions);
    assert!(rt; store.cut() == Cut(all));
    let recs = store.recs();
    assert!(rt; recs.len() <= MOST_RECORDS && is_ascending(recs));
    assert!(rt; greatest(recs) == Cut(all));
}

#[test]
fn the_choice_rises_with_the_records(rt: HostRuntime) -> Result<(), Fail> {
    // An entity and its version, what its stamp tells of entities 1, 2 and 3, and the choice behind it.
    let table = [
        (1, 2, [2, 0, 0], [2, 0, 0]),
        (1, 4, [4, 5, 0], [2, 0, 0]),
        (2, 2, [1, 2, 0], [2, 2, 0]),
        (2, 4, [3, 4, 0], [2, 2, 0]),
        (3, 4, [1, 2, 4], [2, 2, 4]),
    ];
    let mut own = empty_store(rt.alloc(), 2600, 60)?;
    let mut blob = Blob::new(rt.alloc())?;
    blob.put_u64(7);
    for &(number, version, components, versions) in &table {
        let entity = Entity::new(number).ok_or("an entity")?;
        let mut stamp = [0; 64];
        put_three(&mut stamp, components);
        assert!(rt; own.commit(entity, version, &stamp, &blob) == Ok(()));
        cut_is(&rt, own.store(), versions);
    }
    Ok(())
}

// The versions at the ends of the log that a stop leaves; the last record's blob spells its version.
fn left_at(
    rt: &impl Abort,
    alloc: Global,
    disk: &MemoryDisk,
    moment: u64,
    torn: Torn,
) -> Result<(u64, u64), Fail> {
    if moment > disk.moments() {
        return Err(Fail::from("a moment to come"));
    }
    let left = disk.crash(moment, torn)?;
    let mut store = Store::open(alloc, left).ok().ok_or("a store")?;
    last_is_spelt(rt, &mut store, &mut Blob::new(alloc)?);
    let ends = ends_of(store.recs()).ok_or("a record")?;
    Ok(ends)
}

// A stop in a commit of these writes and syncs leaves one of the old logs, the first at the start, or the new one: that once the write
// of its gate has ended, and no other once the sync behind it has.
fn stops_leave(
    rt: &impl Abort,
    alloc: Global,
    disk: &MemoryDisk,
    calls: u64,
    old: &[(u64, u64)],
    new: (u64, u64),
) -> Result<(), Fail> {
    for before in 0..=calls {
        for &torn in &[Torn::Old, Torn::New, Torn::Fill(1)] {
            let moment = disk.moments().saturating_sub(before);
            let left = left_at(rt, alloc, disk, moment, torn)?;
            let is_new = left == new && before < 2;
            let is_old = old.contains(&left) && 0 < before;
            assert!(rt; is_new || is_old, "{before} before the end, {torn:?}");
            assert!(rt; before < calls || old.first() == Some(&left));
        }
    }
    Ok(())
}

// Stops in the commit of entity 41 at the version behind so many.
fn stops_in_commit(
    rt: &impl Abort,
    alloc: Global,
    commits: u64,
    calls: u64,
    old: &[(u64, u64)],
    new: (u64, u64),
) -> Result<(), Fail> {
    let mut own = empty_store(alloc, 2600, 4000)?;
    let mut blob = Blob::new(alloc)?;
    commit_versions(rt, &mut own, &mut blob, 1, commits);
    let before = own.store().begun();
    let next = commits.saturating_add(1);
    commit_versions(rt, &mut own, &mut blob, next, next);
    assert!(rt; own.store().begun() == before.saturating_add(calls));
    stops_leave(rt, alloc, &own.into_disk(), calls, old, new)
}

#[test]
fn a_stop_in_a_commit_leaves_the_record_or_not(rt: HostRuntime) -> Result<(), Fail> {
    stops_in_commit(&rt, rt.alloc(), 2, 6, &[(1, 2)], (1, 3))
}

#[test]
fn a_stop_in_a_commit_that_turns_the_log_leaves_what_was_kept(rt: HostRuntime) -> Result<(), Fail> {
    // A header, a slot and the closed gate behind it, a sync, and two gates, each with a sync; then the record.
    let old = [(1, 640), (640, 640)];
    stops_in_commit(&rt, rt.alloc(), 640, 15, &old, (640, 641))
}
