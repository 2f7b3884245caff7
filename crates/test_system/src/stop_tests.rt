//! Stops of a commit and of an opening, and an opening whose sync fails.
use crate::scripts::{BORN_WITH_WISHES, FIVE, WISHES, WISHES_KEPT};
use crate::{FORMAT_CALLS, formatted, put, shown, small};
use edge_disk::{MemoryDisk, Torn};
use std::alloc::Global;
use std::test::Fail;

// Every way in which a block that was not synced may be torn here.
const TORN: &[Torn] = &[Torn::Old, Torn::New, Torn::Fill(1)];

// What an image of `WISHES` shows: nothing, the births, and a record of each entity, of which one makes no cut without the other.
const STAGES: &[&str] = &["", BORN_WITH_WISHES, WISHES_KEPT];

// How far the run is that a disk's image shows.
fn stage_of(alloc: Global, disk: MemoryDisk) -> Result<usize, Fail> {
    let text = shown(alloc, disk)?;
    let stage = STAGES.iter().position(|stage| *stage == text.as_str());
    Ok(stage.ok_or("a stage of the run")?)
}

// The writes and syncs of the commit of the locus's record end at its mark: the last two are the write of its gate and a sync.
#[test]
fn a_record_is_there_from_its_gate_on(rt: HostRuntime) -> Result<(), Fail> {
    let alloc = rt.alloc();
    let disk = small(alloc, &[])?;
    let since = disk.moments();
    let (_, outcome) = put(alloc, &["run"], WISHES, disk)?;
    let disk = outcome.disk;
    let mark = outcome.marks.last().ok_or("a mark")?.saturating_add(since);
    assert!(rt; mark == disk.moments());
    for &torn in TORN {
        for back in 1..=6_u64 {
            let moment = disk.moments().checked_sub(back).ok_or("a moment")?;
            let stage = stage_of(alloc, disk.crash(moment, torn)?)?;
            // One moment before the mark the gate is written, and not synced.
            let most = if back == 1 { 2 } else { 1 };
            assert!(rt; 1 <= stage && stage <= most, "{torn:?}, {back} back");
        }
        let stage = stage_of(alloc, disk.crash(disk.moments(), torn)?)?;
        assert!(rt; stage == 2, "{torn:?}");
    }
    Ok(())
}

#[test]
fn an_opening_that_is_stopped_changes_nothing(rt: HostRuntime) -> Result<(), Fail> {
    let alloc = rt.alloc();
    let (_, outcome) = put(alloc, &["run"], WISHES, small(alloc, &[])?)?;
    let disk = outcome.disk;
    let since = disk.moments();
    // The locus halts, and nobody wishes it.
    let (_, outcome) = put(alloc, &["run"], b"", disk)?;
    let disk = outcome.disk;
    assert!(rt; outcome.marks.is_empty());
    assert!(rt; since < disk.moments());
    for earlier in since..disk.moments() {
        for &torn in TORN {
            let stage = stage_of(alloc, disk.crash(earlier + 1, torn)?)?;
            assert!(rt; stage == 2, "{torn:?} behind {earlier}");
        }
    }
    Ok(())
}

#[test]
fn a_sync_that_fails_at_the_opening_gives_the_disk_back(rt: HostRuntime) -> Result<(), Fail> {
    let alloc = rt.alloc();
    let disk = formatted(alloc, &[FORMAT_CALLS + 1])?;
    let (lines, outcome) = put(alloc, &["run"], FIVE, disk)?;
    assert!(rt; lines.as_str() == "fault 5 disk\n");
    assert!(rt; outcome.status.number() == 5);
    let (lines, outcome) = put(alloc, &["run"], FIVE, outcome.disk)?;
    assert!(rt; lines.as_str() == "l 5\n");
    assert!(rt; outcome.status.number() == 0);
    Ok(())
}
