use crate::client::{append_and_turn, begin_log};
use crate::images::{append, empty_image, log_at, log_of, open_b, record, records, turn};
use crate::quiet_disk::QuietDisk;
use base_types::Rec;
use edge_disk::{Disk, MemoryDisk, Torn};
use edge_tally::Tally;
use image_blocks::{Area, POOL_AT, superblock};
use log_append::LogFault;
use log_turn::Areas;
use std::alloc::Global;
use std::process::Abort;
use std::test::Fail;

// Appends the records in order.
fn append_all(
    rt: &impl Abort,
    areas: &mut Areas,
    disk: &mut QuietDisk,
    recs: &[Rec],
) -> Result<(), Fail> {
    for rec in recs {
        assert!(rt; append(areas, disk, rec)? == Ok(()), "{}", rec.version);
    }
    Ok(())
}

// The disk reads as this log.
fn reads_as(
    rt: &impl Abort,
    alloc: Global,
    disk: &mut QuietDisk,
    place: (Area, u64),
    recs: &[Rec],
) -> Result<(), Fail> {
    let log = log_of(alloc, disk)?;
    assert!(rt; (log.area, log.epoch) == place);
    assert!(rt; log.recs.len() == recs.len());
    assert!(rt; log.recs.as_slice() == recs);
    Ok(())
}

// Each of the four calls of an append into the last slot fails in turn; a stop then leaves the record once its gate is written.
fn last_slot_fails(
    rt: &impl Abort,
    alloc: Global,
    disk: &mut QuietDisk,
    all: &[Rec],
) -> Result<(), Fail> {
    for failing in 1..=4 {
        let mut areas = Areas::new(Area::A, 1, 639, Tally(0));
        let fault = Err(LogFault::WriteFault);
        assert!(rt; append(&mut areas, disk, &record(640))? == fault);
        is_shut(rt, &mut areas, disk)?;
        let log = log_at(alloc, disk, disk.memory.moments(), Torn::New)?;
        let last = if failing < 4 { 639 } else { 640 };
        assert!(rt; log.recs.len() == last);
        assert!(rt; all.starts_with(&log.recs), "{failing}");
    }
    Ok(())
}

#[test]
fn a_full_log_is_turned_and_turned_back(rt: HostRuntime) -> Result<(), Fail> {
    let alloc = rt.alloc();
    // Five calls made the image, and each record takes five, but the last has no gate behind it.
    let mut disk = empty_image(alloc, 5000, &[3201, 3203, 3206, 3210])?;
    let mut areas = Areas::new(Area::A, 1, 0, Tally(0));
    let all = records(alloc, 1, 640)?;
    append_all(&rt, &mut areas, &mut disk, &records(alloc, 1, 639)?)?;
    last_slot_fails(&rt, alloc, &mut disk, &all)?;
    assert!(rt; append(&mut areas, &mut disk, &record(640))? == Ok(()));
    assert!(rt; disk.memory.moments() == 3214);
    let full = Err(LogFault::SlotsFull);
    assert!(rt; append(&mut areas, &mut disk, &record(641))? == full);
    assert!(rt; disk.memory.moments() == 3214);
    reads_as(&rt, alloc, &mut disk, (Area::A, 1), &all)?;
    assert!(rt; turn(&mut areas, &mut disk, &all)? == Ok(()));
    reads_as(&rt, alloc, &mut disk, (Area::B, 2), &all)?;
    assert!(rt; append(&mut areas, &mut disk, &record(641))? == full);
    // The slots of area A behind the two that are kept there stand open from before.
    assert!(rt; turn(&mut areas, &mut disk, &records(alloc, 1, 2)?)? == Ok(()));
    reads_as(&rt, alloc, &mut disk, (Area::A, 3), &records(alloc, 1, 2)?)?;
    assert!(rt; append(&mut areas, &mut disk, &record(3))? == Ok(()));
    reads_as(&rt, alloc, &mut disk, (Area::A, 3), &records(alloc, 1, 3)?)
}

// The log is shut, and no call of the disk is made.
fn is_shut(rt: &impl Abort, areas: &mut Areas, disk: &mut QuietDisk) -> Result<(), Fail> {
    let calls = disk.memory.calls();
    let shut = Err(LogFault::Shut);
    assert!(rt; append(areas, disk, &record(9))? == shut);
    assert!(rt; turn(areas, disk, &[])? == shut);
    assert!(rt; disk.memory.calls() == calls);
    Ok(())
}

#[test]
fn a_call_of_an_append_that_fails_shuts_the_log(rt: HostRuntime) -> Result<(), Fail> {
    let alloc = rt.alloc();
    let fault = Err(LogFault::WriteFault);
    // An image is five calls, and each append five; the record's gate is the fourth.
    for failing in 11..=15 {
        let mut disk = empty_image(alloc, 40, &[failing])?;
        let mut areas = Areas::new(Area::A, 1, 0, Tally(0));
        append_all(&rt, &mut areas, &mut disk, &records(alloc, 1, 1)?)?;
        assert!(rt;
            append(&mut areas, &mut disk, &record(2))? == fault,
            "{failing}"
        );
        is_shut(&rt, &mut areas, &mut disk)?;
        let last = if failing < 15 { 1 } else { 2 };
        reads_as(
            &rt,
            alloc,
            &mut disk,
            (Area::A, 1),
            &records(alloc, 1, last)?,
        )?;
    }
    Ok(())
}

// Two records are appended, and a call of a turn that keeps the second fails; then the old log is read, or the kept one.
fn turn_fails(
    rt: &impl Abort,
    disk: &mut QuietDisk,
    alloc: Global,
    is_old: bool,
) -> Result<(), Fail> {
    let mut areas = Areas::new(Area::A, 1, 0, Tally(0));
    let two = records(alloc, 1, 2)?;
    append_all(rt, &mut areas, disk, &two)?;
    let kept = [record(2)];
    let fault = Err(LogFault::WriteFault);
    assert!(rt; turn(&mut areas, disk, &kept)? == fault);
    is_shut(rt, &mut areas, disk)?;
    if is_old {
        return reads_as(rt, alloc, disk, (Area::A, 1), &two);
    }
    reads_as(rt, alloc, disk, (Area::B, 2), &kept)
}

#[test]
fn a_call_of_a_turn_that_fails_shuts_the_log(rt: HostRuntime) -> Result<(), Fail> {
    let alloc = rt.alloc();
    // A turn that keeps one record is ten calls, of which the seventh opens the gate of area B.
    for failing in 16..=25 {
        let mut disk = empty_image(alloc, 40, &[failing])?;
        turn_fails(&rt, &mut disk, alloc, failing <= 22)?;
    }
    // Where that gate stands open it is closed behind the first, by two calls more; to open it took two as well.
    for failing in 18..=29 {
        let mut disk = empty_image(alloc, 40, &[failing])?;
        open_b(&mut disk)?;
        turn_fails(&rt, &mut disk, alloc, failing <= 26)?;
    }
    Ok(())
}

// A stop at each moment since that one leaves the old log or the new one; at the first the old, at the last the new.
fn stops_leave(
    rt: &impl Abort,
    alloc: Global,
    disk: &QuietDisk,
    start: u64,
    logs: ((Area, &[Rec]), (Area, &[Rec])),
) -> Result<(), Fail> {
    let (old, new) = logs;
    let end = disk.memory.moments();
    for moment in start..=end {
        for &torn in &[Torn::Old, Torn::New, Torn::Fill(1)] {
            let log = log_at(alloc, disk, moment, torn)?;
            let is_old = log.area == old.0 && log.recs.as_slice() == old.1;
            let is_new = log.area == new.0 && log.recs.as_slice() == new.1;
            assert!(rt;
                (is_old && moment < end) || (is_new && start < moment),
                "moment {moment}, {torn:?}"
            );
        }
    }
    Ok(())
}

#[test]
fn a_stop_at_any_moment_leaves_the_old_log_or_the_new_one(rt: HostRuntime) -> Result<(), Fail> {
    let alloc = rt.alloc();
    let two = records(alloc, 1, 2)?;
    let three = records(alloc, 1, 3)?;
    let kept = records(alloc, 2, 3)?;
    for &was_open in &[false, true] {
        let mut disk = empty_image(alloc, 60, &[])?;
        if was_open {
            open_b(&mut disk)?;
        }
        let mut areas = Areas::new(Area::A, 1, 0, Tally(0));
        append_all(&rt, &mut areas, &mut disk, &two)?;
        let start = disk.memory.moments();
        append_all(&rt, &mut areas, &mut disk, &records(alloc, 3, 3)?)?;
        assert!(rt; disk.memory.moments() == start.saturating_add(5));
        let logs = ((Area::A, two.as_slice()), (Area::A, three.as_slice()));
        stops_leave(&rt, alloc, &disk, start, logs)?;
        let start = disk.memory.moments();
        assert!(rt; turn(&mut areas, &mut disk, &kept)? == Ok(()));
        let logs = ((Area::A, three.as_slice()), (Area::B, kept.as_slice()));
        stops_leave(&rt, alloc, &disk, start, logs)?;
    }
    Ok(())
}

// Of this disk the content is proved, so that the test proves that the log stands where it is used.
#[test]
fn a_log_is_begun_appended_to_and_turned(rt: HostRuntime) -> Result<(), Fail> {
    let alloc = rt.alloc();
    let mut disk = MemoryDisk::new(alloc, 2600, 40, Vec::new(alloc))?;
    if disk.blocks() < POOL_AT {
        return Err(Fail::from("too small"));
    }
    disk.write(0, &superblock(2600))?;
    let mut areas = begin_log(&mut disk)?;
    let kept = [record(1)];
    assert!(rt; append_and_turn(&mut areas, &mut disk, &record(2), &kept) == Ok(()));
    let log = log_of(alloc, &mut disk)?;
    assert!(rt; (log.area, log.epoch) == (Area::B, 2));
    assert!(rt; log.recs.as_slice() == kept.as_slice());
    Ok(())
}
