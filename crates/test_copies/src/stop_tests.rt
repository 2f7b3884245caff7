//! Copies over disks that fail at each call and stop at each moment: the image is the one before or the one with the copy.
use crate::calls::{BEFORE, COPIED, copied, shown_on};
use crate::images::{WRITES, with_pages};
use container_copy::{CopyFault, CopyWhy, copy_container};
use edge_disk::{MemoryDisk, Torn};
use std::alloc::Global;
use std::process::Abort;
use std::test::Fail;

// Whether an image shows what it did, or the copy too.
fn is_one_of_both(alloc: Global, disk: &mut MemoryDisk) -> Result<bool, Fail> {
    let shown = shown_on(alloc, disk)?;
    Ok(shown.as_str() == BEFORE || shown.as_str() == COPIED)
}

// A stop at that moment, torn in three ways, leaves the one or the other.
fn stop_leaves(alloc: Global, disk: &MemoryDisk, moment: u64) -> Result<bool, Fail> {
    if moment > disk.moments() {
        return Err(Fail::from("a moment to come"));
    }
    for &torn in &[Torn::Old, Torn::New, Torn::Fill(1)] {
        let mut left = disk.crash(moment, torn)?;
        if !is_one_of_both(alloc, &mut left)? {
            return Ok(false);
        }
    }
    Ok(true)
}

#[test]
fn a_stop_at_any_moment_leaves_all_or_nothing(rt: HostRuntime) -> Result<(), Fail> {
    let alloc = rt.alloc();
    let disk = copied(alloc, with_pages(alloc, 2600, 1, &[])?, "a", "b")?.disk;
    // The sync of the opening is the next call behind those that made the image.
    for moment in WRITES + 1..=disk.moments() {
        assert!(rt; stop_leaves(alloc, &disk, moment)?, "moment {moment}");
    }
    Ok(())
}

// What a stop at that moment shows, with none of the pending blocks.
fn shown_at(alloc: Global, disk: &MemoryDisk, moment: u64) -> Result<String, Fail> {
    if moment > disk.moments() {
        return Err(Fail::from("a moment to come"));
    }
    let mut left = disk.crash(moment, Torn::Old)?;
    shown_on(alloc, &mut left)
}

#[test]
fn a_stop_between_the_commits_leaves_the_old_choice(rt: HostRuntime) -> Result<(), Fail> {
    let alloc = rt.alloc();
    let disk = copied(alloc, with_pages(alloc, 2600, 1, &[])?, "a", "b")?.disk;
    let end = disk.moments();
    // The second commit's calls: its blob, its body, the gate behind it, a sync, its gate and a sync.
    let shown = shown_at(alloc, &disk, end.saturating_sub(6))?;
    assert!(rt; shown.as_str() == BEFORE, "{shown}");
    let shown = shown_at(alloc, &disk, end.saturating_sub(1))?;
    assert!(rt; shown.as_str() == BEFORE, "{shown}");
    let shown = shown_at(alloc, &disk, end)?;
    assert!(rt; shown.as_str() == COPIED, "{shown}");
    Ok(())
}

// The copy over a disk of which this call fails.
fn failing_at(alloc: Global, failing: u64) -> Result<CopyFault<MemoryDisk>, Fail> {
    let disk = with_pages(alloc, 2600, 1, &[failing])?;
    match copy_container(alloc, disk, "a", "b") {
        Ok(_) => Err(Fail::from("a fault")),
        Err(fault) => Ok(fault),
    }
}

// A fault at that call is told as one of the disk, and what came back shows what it did, or the copy too.
fn is_told(rt: &impl Abort, alloc: Global, failing: u64) -> Result<(), Fail> {
    let fault = failing_at(alloc, failing)?;
    assert!(rt;
        matches!(fault.why, CopyWhy::ReadFault | CopyWhy::WriteFault),
        "call {failing}"
    );
    let mut disk = fault.disk;
    assert!(rt; is_one_of_both(alloc, &mut disk)?, "call {failing}");
    Ok(())
}

#[test]
fn each_call_may_fail(rt: HostRuntime) -> Result<(), Fail> {
    let alloc = rt.alloc();
    let disk = copied(alloc, with_pages(alloc, 2600, 1, &[])?, "a", "b")?.disk;
    for failing in WRITES + 1..=disk.calls() {
        is_told(&rt, alloc, failing)?;
    }
    Ok(())
}

#[test]
fn the_first_sync_and_the_first_read_are_told_apart(rt: HostRuntime) -> Result<(), Fail> {
    let alloc = rt.alloc();
    let fault = failing_at(alloc, WRITES + 1)?;
    assert!(rt; matches!(fault.why, CopyWhy::WriteFault));
    assert!(rt; fault.disk.calls() == WRITES + 1);
    let fault = failing_at(alloc, WRITES + 2)?;
    assert!(rt; matches!(fault.why, CopyWhy::ReadFault));
    Ok(())
}
